// The words that a run is lent, and one number for them, to see that they are as they came.
use engine::Lines;

// A number that another word at any position changes, from a number of the words before.
fn digest(before: u64, run: &[i64]) -> u64 {
    let mut sum = before;
    let mut all = before;
    for word in run {
        sum = sum.wrapping_add(word.cast_unsigned());
        all = all.wrapping_add(sum);
    }
    all
}

// The spaces that a run is lent beside the cells: for 257 commands, the stack, the handler and three lines. Each word is -7.
#[derive(Drop)]
pub(crate) struct Spaces {
    pub program: [i64; 514],
    pub stack: [i64; 768],
    pub handler: [i64; 332],
    pub numbers: [i64; 3],
    pub line_labels: [i64; 3],
    pub kinds: [i64; 3],
    pub pages: [i64; 3],
}

impl Spaces {
    pub(crate) fn new() -> Spaces {
        Spaces {
            program: [-7; 514],
            stack: [-7; 768],
            handler: [-7; 332],
            numbers: [-7; 3],
            line_labels: [-7; 3],
            kinds: [-7; 3],
            pages: [-7; 3],
        }
    }

    // The lines' space.
    pub(crate) fn lines(&self) -> Lines<'_> {
        Lines {
            numbers: &self.numbers,
            labels: &self.line_labels,
            kinds: &self.kinds,
            pages: &self.pages,
        }
    }

    // All words that are lent, with those of the cells.
    pub(crate) fn digest(&self, values: &[i64], labels: &[i64]) -> u64 {
        let cells = digest(digest(0, values), labels);
        let spaces = digest(
            digest(digest(cells, &self.program), &self.stack),
            &self.handler,
        );
        let lines = digest(digest(spaces, &self.numbers), &self.line_labels);
        digest(digest(lines, &self.kinds), &self.pages)
    }
}
