// Reading a job. Read specs/Job.antt first.
ghost use Rattle.std.specs.Prelude.{◌≡◌, ◌<◌, length};
ghost use Rattle.report.specs.Job as Jobs;

use label::Label;

// What a job says: how many cells it has, its allowance and reader's set; and, for this module alone, the offset after byte 43.
#[derive(Clone, Copy, PartialEq, Eq, Debug)]
pub struct Said {
    pub cells: usize,
    pub allowance: u64,
    pub reader: Label,
    sheet: usize,
}

// A command of a job.
#[derive(Clone, Copy)]
enum Item {
    Cell(i64, Label),
    Allowance(u32),
    Reader(Label),
    Sheet,
}

#[tactic(auto, using(crate::proofs::Fields::four_fits), unfolding(crate::specs::Job::four_at))]
fn four_at(job: &[u8], at: usize) -> Option<u32>
    ensures { result ≡ Jobs.four_at job.now at }
{
    Some(word::field::u32_at(job, at)? as u32)
}

// The command at an offset within the job, if it is one.
#[tactic(auto, unfolding(crate::specs::Job::item_at))]
fn item_at(job: &[u8], at: usize) -> Option<Item>
    requires { at < length job.now }
    ensures { result ≡ Jobs.item_at job.now at }
{
    match job[at] {
        0x40 => {
            let number = word::field::signed_at::<i64>(job, at + 1)?;
            Some(Item::Cell(number, Label(four_at(job, at + 9)?)))
        }
        0x41 => Some(Item::Allowance(four_at(job, at + 1)?)),
        0x42 => Some(Item::Reader(Label(four_at(job, at + 1)?))),
        0x43 => Some(Item::Sheet),
        _ => None,
    }
}

// Reads a job up to byte 43, its cells into two lent runs; a cell that lies beyond the end of a run is not stored there. The runs may differ
// in length, and each has its clause: no struct.
pub fn read(job: &[u8], values: &mut [i64], labels: &mut [i64]) -> Result<Said, usize>
    ensures answer { result ≡ Jobs.job_answer (Jobs.read_job job.now) }
    ensures values { values.new ≡ Jobs.fitted (Jobs.read_job job.now).heard.values values.old }
    ensures labels { labels.new ≡ Jobs.fitted (Jobs.read_job job.now).heard.labels labels.old }
{
    if 65536 < job.len() {
        return Err(65536);
    }
    let mut at: usize = 0;
    let mut cells: usize = 0;
    let mut allowance: u64 = 1000000;
    let mut reader: Label = Label::EMPTY;
    // commands differ in length
    while at < job.len() {
        let Some(item) = item_at(job, at) else {
            return Err(at);
        };
        match item {
            Item::Cell(number, label) => {
                if cells == 1024 {
                    return Err(at);
                }
                word::memory::put(values, cells, number);
                word::memory::put(labels, cells, i64::from(label));
                cells += 1;
                at += 13;
            }
            Item::Allowance(n) => {
                allowance = n as u64;
                at += 5;
            }
            Item::Reader(l) => {
                reader = l;
                at += 5;
            }
            Item::Sheet => {
                return Ok(Said {
                    cells,
                    allowance,
                    reader,
                    sheet: at + 1,
                });
            }
        }
    }
    Err(job.len())
}

// The sheet: the job's own bytes after byte 43 to the end; a bad job has none. The reader is lent no room for cells here.
pub fn sheet(job: &[u8]) -> &[u8]
    ensures { result.now ≡ Jobs.sheet_of job.now }
{
    let start = match read(job, &mut [], &mut []) {
        Ok(said) => said.sheet,
        Err(_) => job.len(),
    };
    &job[start.min(job.len())..]
}
