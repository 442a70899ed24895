// The kernel on lent words: one instruction after the other from the handler space, on a stack of its own, over the rule memory. Read
// specs/Space.antt of `handler` first: `handle` is its `handle_space`. specs/Words.antt says how the code's words stand for the kernel's
// stack and effects.
#![tactic(auto)]

ghost use Rattle.std.specs.Prelude.{◌≡◌, ◌≤◌, ◌<◌, ◌^◌, List, ℤ, pos, length, OnErr};
ghost use Rattle.handler.specs.Kernel.{or_word, Load, Store, Dup, Swap, Jump, Push, Bnz};
ghost use Rattle.handler.specs.Space.{known, handle_space};
ghost use Rattle.kernel.specs.Words.{Room, below, going, combined, folding, jumping_from};
ghost use Rattle.kernel.specs.Words.{DoesOn, Does, Acts, result_of};

use handler::code::{ADD, BNZ, DUP, JUMP, LOAD, OR, PUSH, RET, STORE, SUB, SWAP};
use policy::row::Cache;

// How a handler ended: by Ret, by the jump to -1, or by leaving its rules.
#[derive(Clone, Copy, PartialEq, Eq, Debug)]
pub enum Outcome {
    Returned,
    Denied,
    Failed,
}

// What a handler leaves: its end, the rule memory and the kernel steps.
#[derive(Clone, Copy, PartialEq, Eq, Debug)]
pub struct Handled {
    pub outcome: Outcome,
    pub cache: Cache,
    pub steps: u64,
}

// The kernel's registers: the place, how many entries the stack has, and the topmost of them; the others lie in words.
#[derive(Clone, Copy)]
struct Registers {
    place: usize,
    depth: usize,
    top: i64,
}

// What an instruction hands back: the registers with which the handler goes on, or its end.
type Step = Result<Registers, Outcome>;

// The handler goes on.
fn gone(at: Registers) -> Step
    ensures { result ≡ going at }
{
    Ok(at)
}

fn or(a: i64, b: i64) -> i64
    ensures { result ≡ or_word a b }
{
    a | b
}

// Add and Sub have their codes; the third is Or. What picks the operation is a part of a lent word, so it is a code, and no closure.
fn combine(code: u64, a: i64, b: i64) -> i64
    ensures { result ≡ combined code a b }
{
    match code {
        ADD => word::wrap::add(a, b),
        SUB => word::wrap::sub(a, b),
        _ => or(a, b),
    }
}

// Add, Sub and Or.
fn fold(code: u64, s: Registers, stack: &[i64]) -> Step
    requires { Room s stack.now }
    ensures { Does (folding code) s stack.now result stack.now }
{
    if s.depth < 2 {
        return Err(Outcome::Failed);
    }
    gone(Registers {
        place: s.place + 1,
        depth: s.depth - 1,
        top: combine(code, s.top, stack[s.depth - 1]),
    })
}

// The topmost entry goes to where the others lie.
fn push(word: i64, s: Registers, stack: &mut [i64]) -> Step
    requires { Room s stack.old }
    ensures { Does (Push word) s stack.old result stack.new }
{
    if 64 <= s.depth {
        return Err(Outcome::Failed);
    }
    stack[s.depth] = s.top;
    gone(Registers {
        place: s.place + 1,
        depth: s.depth + 1,
        top: word,
    })
}

fn dup(s: Registers, stack: &mut [i64]) -> Step
    requires { Room s stack.old }
    ensures { Does Dup s stack.old result stack.new }
{
    if s.depth < 1 {
        return Err(Outcome::Failed);
    }
    push(s.top, s, stack)
}

fn swap(s: Registers, stack: &mut [i64]) -> Step
    requires { Room s stack.old }
    ensures { Does Swap s stack.old result stack.new }
{
    if s.depth < 2 {
        return Err(Outcome::Failed);
    }
    let under = stack[s.depth - 1];
    stack[s.depth - 1] = s.top;
    gone(Registers {
        place: s.place + 1,
        top: under,
        ..s
    })
}

fn load(s: Registers, row: &Cache) -> Step
    requires { s.place < 2 ^ 63 }
    ensures { (stack : List ℤ) → DoesOn row.now.words Load s stack result row.now.words stack }
{
    if s.depth < 1 {
        return Err(Outcome::Failed);
    }
    let i = word::number::below(s.top, 7).ok_or(Outcome::Failed)?;
    gone(Registers {
        place: s.place + 1,
        top: row.words[i],
        ..s
    })
}

// Without its topmost entry.
fn dropped(s: Registers, stack: &[i64]) -> Registers
    requires { Room s stack.now × (1 ≤ s.depth) }
    ensures { result ≡ below s stack.now }
{
    Registers {
        depth: s.depth - 1,
        top: stack[s.depth - 1],
        ..s
    }
}

fn store(s: Registers, stack: &[i64], row: &mut Cache) -> Step
    requires { Room s stack.now }
    ensures does { DoesOn row.old.words Store s stack.now result row.new.words stack.now }
    ensures kept { OnErr result (row.new.words ≡ row.old.words) }
{
    if s.depth < 2 {
        return Err(Outcome::Failed);
    }
    let i = word::number::below(s.top, 7).ok_or(Outcome::Failed)?;
    row.words[i] = stack[s.depth - 1];
    Ok(Registers {
        place: s.place + 1,
        depth: s.depth - 2,
        top: stack[s.depth - 2],
    })
}

// A jump by a word from a base, which is 0 for Jump and the place for Bnz: it goes forward, or to -1.
fn jump_from(base: usize, word: i64, s: Registers) -> Step
    requires { base < 2 ^ 63 }
    ensures { result ≡ jumping_from base word s }
{
    if word < 0 {
        return Err(if (-1 - word) as usize == base {
            Outcome::Denied
        } else {
            Outcome::Failed
        });
    }
    let place = base + word as usize;
    if place <= s.place {
        return Err(Outcome::Failed);
    }
    gone(Registers { place, ..s })
}

fn jump(s: Registers, stack: &[i64]) -> Step
    requires { Room s stack.now }
    ensures { Does Jump s stack.now result stack.now }
{
    if s.depth < 1 {
        return Err(Outcome::Failed);
    }
    jump_from(0, s.top, dropped(s, stack))
}

fn bnz(operand: i64, s: Registers, stack: &[i64]) -> Step
    requires { Room s stack.now }
    ensures { Does (Bnz operand) s stack.now result stack.now }
{
    if s.depth < 1 {
        return Err(Outcome::Failed);
    }
    let under = dropped(s, stack);
    if s.top == 0 {
        return gone(Registers {
            place: under.place + 1,
            ..under
        });
    }
    jump_from(under.place, operand, under)
}

// One instruction. The tests stand as a tree: measured faster than a match.
#[tactic(auto, using(crate::proofs::Acting::acts, crate::proofs::Acting::acts_ret), unfolding(handler::specs::Space::known))]
fn choose(code: u64, operand: i64, s: Registers, stack: &mut [i64], row: &mut Cache) -> Step
    requires { Room s stack.old }
    ensures acts { Acts row.old.words (known (pos code) operand) s stack.old result row.new.words stack.new }
    ensures kept { OnErr result (row.new.words ≡ row.old.words) }
{
    if code < STORE {
        if code <= SUB {
            if code < ADD {
                return Err(Outcome::Failed);
            }
            return fold(code, s, stack);
        }
        if code == PUSH {
            return push(operand, s, stack);
        }
        if code == LOAD {
            return load(s, row);
        }
        return Err(Outcome::Failed);
    }
    if code <= BNZ {
        if code == STORE {
            return store(s, stack, row);
        }
        if code == JUMP {
            return jump(s, stack);
        }
        return bnz(operand, s, stack);
    }
    if code < OR {
        if code == RET {
            return Err(Outcome::Returned);
        }
        return Err(Outcome::Failed);
    }
    if code == OR {
        return fold(code, s, stack);
    }
    if code == DUP {
        return dup(s, stack);
    }
    if code == SWAP {
        return swap(s, stack);
    }
    Err(Outcome::Failed)
}

// The instruction that two words stand for.
fn act(code: i64, operand: i64, s: Registers, stack: &mut [i64], row: &mut Cache) -> Step
    requires { Room s stack.old }
    ensures acts { Acts row.old.words (known code operand) s stack.old result row.new.words stack.new }
    ensures kept { OnErr result (row.new.words ≡ row.old.words) }
{
    choose(word::wrap::to_bits(code), operand, s, stack, row)
}

// Runs the handler on a stack of 64 words, which is empty, over the rule memory, whatever the words. Every instruction goes forward, so
// that the place alone bounds the run. The rule memory is lent and its word changed in its place: by `set` all seven would be copied.
fn go(space: &[i64], count: usize, stack: &mut [i64], cache: Cache) -> Handled
    requires { length stack.old ≡ 64 }
    ensures { result_of result ≡ handle_space space.now count cache.words }
{
    // So many of the instructions does the space hold: each takes two words.
    let limit = (space.len() / 2).min(count);
    let mut at = Registers {
        place: 0,
        depth: 0,
        top: 0,
    };
    let mut row = cache;
    let mut steps: u64 = 0;
    while at.place < limit {
        match act(
            space[2 * at.place],
            space[2 * at.place + 1],
            at,
            stack,
            &mut row,
        ) {
            Ok(next) => {
                at = next;
                steps += 1;
            }
            // Ret and the jump to -1 are steps, what fails is none.
            Err(Outcome::Failed) => return Handled {
                outcome: Outcome::Failed,
                cache: row,
                steps,
            },
            Err(outcome) => return Handled {
                outcome,
                cache: row,
                steps: steps + 1,
            },
        }
    }
    Handled {
        outcome: Outcome::Failed,
        cache: row,
        steps,
    }
}

// Runs the handler of `count` instructions that a space holds, on the rule memory.
pub fn handle(space: &[i64], count: usize, cache: Cache) -> Handled
    ensures { result_of result ≡ handle_space space.now count cache.words }
{
    let mut stack = [0i64; 64];
    go(space, count, &mut stack, cache)
}
