// The rule memory in front of the handler. Read tagging/specs/Consult.antt first.
ghost use Rattle.std.specs.Prelude.{◌≡◌, true, false, pos, get_or, length};
ghost use Rattle.handler.specs.Space.{handle_space};
ghost use Rattle.word.specs.Number.{same_word};
ghost use Rattle.tagging.specs.Consult.{matches, missed, consult};
ghost use Rattle.tagged.specs.Ruling.{input_word, five_for, five_of, ruling_of, ruling};

use crate::run::Kept;
use kernel::{Outcome, handle};
use label::Label;
use policy::row::Cache;
use step::find::Inputs;
use tables::{Allowed, Verdict};

// The five words that a command asks with: code, P, L1, L2, L3; missing inputs are -1.
#[derive(Clone, Copy)]
pub(crate) struct Five {
    pub code: i64,
    pub pc: i64,
    pub input1: i64,
    pub input2: i64,
    pub input3: i64,
}

// The word of an input: its label where the command supplies it.
fn input_word(supplied: bool, label: Label) -> i64
    ensures { result ≡ input_word supplied label.0 }
{
    if supplied { i64::from(label) } else { -1 }
}

// Of a command with this code word at a place with this label.
pub(crate) fn five_words(code: i64, pc: Label, found: Inputs) -> Five
    ensures { five_of result ≡ five_for (record { code = code; pc = pc.0; inputs = found }) }
{
    let count = found.count;
    Five {
        code,
        pc: i64::from(pc),
        input1: input_word(1 <= count, found.input1),
        input2: input_word(2 <= count, found.input2),
        input3: input_word(3 <= count, found.input3),
    }
}

// How a command was ruled on: what the rules say; the rule memory; a fault or none, and the kernel steps.
#[derive(Clone, Copy)]
pub(crate) struct Ruling {
    pub verdict: Verdict,
    pub kept: Kept,
}

// Is the word at an index this one?
fn holds(cache: Cache, i: usize, word: i64) -> bool
    ensures { result ≡ same_word word (get_or cache.words i (pos 0)) }
{
    word == cache.get(i)
}

// Do the first five words match the command about to run?
#[tactic(auto, unfolding(tagging::specs::Consult::matches))]
fn matching(cache: Cache, five: Five) -> bool
    ensures { result ≡ matches (five_of five) cache.words }
{
    holds(cache, 0, five.code)
        && holds(cache, 1, five.pc)
        && holds(cache, 2, five.input1)
        && holds(cache, 3, five.input2)
        && holds(cache, 4, five.input3)
}

// The five words are written, and the last two become -1.
fn miss(cache: Cache, five: Five) -> Cache
    requires { length cache.words ≡ 7 }
    ensures { result.words ≡ missed (five_of five) }
{
    let asked = cache
        .set(0, five.code)
        .set(1, five.pc)
        .set(2, five.input1)
        .set(3, five.input2)
        .set(4, five.input3);
    asked.set(5, -1).set(6, -1)
}

// The last two words are used.
fn hit(cache: Cache, faults: u64, kernel: u64) -> Ruling
    ensures { ruling_of result ≡ ruling true cache.words faults kernel }
{
    let allowed = Allowed {
        place: Label::low(cache.get(5)),
        result: Label::low(cache.get(6)),
    };
    Ruling {
        verdict: Some(allowed),
        kept: Kept {
            cache,
            faults,
            kernel,
        },
    }
}

fn deny(cache: Cache, kernel: u64) -> Ruling
    ensures { ruling_of result ≡ ruling false cache.words 1 kernel }
{
    Ruling {
        verdict: None,
        kept: Kept {
            cache,
            faults: 1,
            kernel,
        },
    }
}

// Where the five words match, the last two are used; otherwise the handler of `count` instructions in `space` runs, and where it has
// returned, the command starts again.
#[tactic(auto, unfolding(tagging::specs::Consult::consult))]
pub(crate) fn consult(space: &[i64], count: usize, five: Five, cache: Cache) -> Ruling
    ensures { ruling_of result ≡ consult (handle_space space.now count) (five_of five) cache.words }
{
    if matching(cache, five) {
        return hit(cache, 0, 0);
    }
    let handled = handle(space, count, miss(cache, five));
    if handled.outcome == Outcome::Returned && matching(handled.cache, five) {
        hit(handled.cache, 1, handled.steps)
    } else {
        deny(handled.cache, handled.steps)
    }
}
