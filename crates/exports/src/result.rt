// The engines' answers as ten words, the page's as two, and those of texts and listings as three. The structs are the C interface's.
ghost use Rattle.std.specs.Prelude.{◌≡◌};
ghost use Rattle.exports.specs.Result.{refused_result, stopped_result, result_of, page_result, written_result};

use engine::Ran;
use program::Refusal;

// What a run came to: `luvrodan_result` of include/luvrodan.h, field by field in its order.
#[repr(C)]
#[derive(Clone, Copy, PartialEq, Eq, Debug)]
pub struct LuvrodanResult {
    pub refusal: u64,
    pub position: u64,
    pub stop: u64,
    pub steps: u64,
    pub pc: i64,
    pub label: u64,
    pub depth: u64,
    pub lines: u64,
    pub faults: u64,
    pub kernel: u64,
}

// What a page came to: `luvrodan_page_result`.
#[repr(C)]
#[derive(Clone, Copy, PartialEq, Eq, Debug)]
pub struct LuvrodanPageResult {
    pub status: u64,
    pub length: u64,
}

// What a text or a listing came to: `luvrodan_written`.
#[repr(C)]
#[derive(Clone, Copy, PartialEq, Eq, Debug)]
pub struct LuvrodanWritten {
    pub refusal: u64,
    pub position: u64,
    pub length: u64,
}

// An engine's answer, with the faults and the kernel steps of its run.
pub(crate) fn of_answer(answer: Result<Ran, Refusal>, faults: u64, kernel: u64) -> LuvrodanResult
    ensures { result ≡ result_of answer faults kernel }
{
    match answer {
        Err(r) => refused(r),
        Ok(ran) => stopped(ran, faults, kernel),
    }
}

fn refused(r: Refusal) -> LuvrodanResult
    ensures { result ≡ refused_result r }
{
    LuvrodanResult {
        refusal: r.code,
        position: r.position as u64,
        stop: 0,
        steps: 0,
        pc: 0,
        label: 0,
        depth: 0,
        lines: 0,
        faults: 0,
        kernel: 0,
    }
}

fn stopped(ran: Ran, faults: u64, kernel: u64) -> LuvrodanResult
    ensures { result ≡ stopped_result ran.machine ran.stop ran.steps faults kernel }
{
    let m = ran.machine;
    LuvrodanResult {
        refusal: 0,
        position: 0,
        stop: ran.stop.number(),
        steps: ran.steps,
        pc: m.pc.0,
        label: m.label.0 as u64,
        depth: m.depth as u64,
        lines: m.lines as u64,
        faults,
        kernel,
    }
}

impl From<Option<usize>> for LuvrodanPageResult {
    ghost from_gives = { λ made result. result ≡ page_result made };

    fn from(made: Option<usize>) -> LuvrodanPageResult {
        match made {
            Some(length) => LuvrodanPageResult {
                status: 0,
                length: length as u64,
            },
            None => LuvrodanPageResult {
                status: 1,
                length: report::PAGE_LIMIT as u64,
            },
        }
    }
}

impl From<Result<usize, Refusal>> for LuvrodanWritten {
    ghost from_gives = { λ written result. result ≡ written_result written };

    fn from(written: Result<usize, Refusal>) -> LuvrodanWritten {
        match written {
            Ok(length) => LuvrodanWritten {
                refusal: 0,
                position: 0,
                length: length as u64,
            },
            Err(r) => LuvrodanWritten {
                refusal: r.code,
                position: r.position as u64,
                length: 0,
            },
        }
    }
}
