// The rule memory. Read specs/Row.antt first.
ghost use Rattle.std.specs.Prelude.{◌≡◌, pos, get_or, set, replicate};
ghost use Rattle.policy.specs.Row.{empty_row};

// The rule memory: code, P, L1, L2, L3, new place label, result label.
#[derive(Clone, Copy, PartialEq, Eq, Debug)]
pub struct Cache {
    pub words: [i64; 7],
}

impl Cache {
    // Seven zeros mean empty.
    pub fn empty() -> Cache
        ensures { result.words ≡ replicate 7 (pos 0) }
    {
        Cache { words: [0; 7] }
    }

    // A word; 0 outside.
    pub fn get(self, i: usize) -> i64
        ensures { result ≡ get_or self.words i (pos 0) }
    {
        self.words.get(i).copied().unwrap_or(0)
    }

    // One word changed and no other; none outside.
    pub fn set(mut self, i: usize, word: i64) -> Cache
        ensures { result.words ≡ set self.words i word }
    {
        // After a write through `get_mut` a proof knows no word.
        if i < 7 {
            self.words[i] = word;
        }
        self
    }

    // Seven zeros.
    #[tactic(auto, using(crate::proofs::Rows::zeros_empty))]
    pub fn is_empty(self) -> bool
        ensures { result ≡ empty_row self.words }
    {
        self.words == [0; 7]
    }
}
