// Runs whose reads, writes and notes fail in turn, against what is out and what is noted then.
use crate::run::run_gateway;
use crate::status::Status;
use crate::test_logs::words_of;
use amr_io::{MemorySink, MemorySource};
use std::alloc::Global;
use std::process::Abort;
use std::test::Fail;

// More calls than any run here makes, and more octets than any puts out.
const MANY: usize = 999;

// A job with its input, all that it puts out and notes, and how many octets are out once a read fails behind so many read ones.
#[derive(Clone, Copy)]
pub struct Case<'a> {
    pub line: &'a str,
    pub input: &'a [u8],
    pub whole: &'a [u8],
    pub notes: &'a str,
    pub early: &'a [(usize, usize)],
}

// The numbers of the reads, the writes and the writes of notes that fail.
#[derive(Clone, Copy)]
pub struct Failing<'a> {
    pub reads: &'a [u64],
    pub writes: &'a [u64],
    pub notes: &'a [u64],
}

// What a run came to.
#[derive(Drop)]
pub struct Ended {
    pub status: Status,
    pub output: MemorySink,
    pub told: MemorySink,
}

// Runs a case with its octets in pieces of at most `cut`.
pub fn run_with(
    rt: &(impl Abort + Alloc<A = Global>),
    case: &Case<'_>,
    cut: usize,
    failing: Failing<'_>,
) -> Result<Ended, Fail> {
    let words = words_of(rt.alloc(), case.line)?;
    let cut = cut.max(1);
    let mut input = MemorySource::create(rt.alloc(), case.input, cut, failing.reads)?;
    let mut output = MemorySink::create(rt.alloc(), MANY, cut, failing.writes)?;
    let mut told = MemorySink::create(rt.alloc(), MANY, cut, failing.notes)?;
    let status = run_gateway(rt.alloc(), &words, &mut input, &mut output, &mut told);
    Ok(Ended {
        status,
        output,
        told,
    })
}

// How many octets are out once a read fails behind so many read ones.
fn early_at(case: &Case<'_>, read: usize) -> usize {
    let mut out = 0;
    for (from, octets) in case.early {
        if *from <= read {
            out = *octets;
        }
    }
    out
}

// Each read fails in turn, the one that would find the end too.
pub fn expect_read_faults(
    rt: &(impl Abort + Alloc<A = Global>),
    case: &Case<'_>,
    cut: usize,
) -> Result<(), Fail> {
    let line = case.line;
    for call in 0..MANY {
        let read = call.saturating_mul(cut).min(case.input.len());
        let failing = Failing {
            reads: &[call as u64],
            writes: &[],
            notes: &[],
        };
        let ended = run_with(rt, case, cut, failing)?;
        let out = early_at(case, read).min(case.whole.len());
        assert_eq!(rt;
            ended.status,
            Status::ReadFault,
            "{line}: read {call} of {cut}"
        );
        assert_eq!(rt;
            ended.output.octets(),
            &case.whole[..out],
            "{line}: read {call} of {cut}"
        );
        assert_eq!(rt;
            ended.told.octets(),
            b"read fault\n".as_slice(),
            "{line}: read {call} of {cut}"
        );
        if read == case.input.len() {
            return Ok(());
        }
    }
    panic!(rt; "{line}: {MANY} reads weren't enough");
}

// What is there of `whole` once the write of this number failed: so many pieces of at most `cut` octets.
fn expect_front(rt: &impl Abort, got: &[u8], whole: &[u8], call: usize, cut: usize) {
    assert!(rt; whole.starts_with(got), "write {call} of {cut}");
    assert!(rt; got.len() < whole.len(), "write {call} of {cut}");
    assert!(rt; call <= got.len(), "write {call} of {cut}");
    assert!(rt;
        got.len() <= call.saturating_mul(cut),
        "write {call} of {cut}"
    );
}

// Each write fails in turn, up to the number of the first that isn't made.
pub fn expect_write_faults(
    rt: &(impl Abort + Alloc<A = Global>),
    case: &Case<'_>,
    cut: usize,
) -> Result<(), Fail> {
    let line = case.line;
    for call in 0..MANY {
        let failing = Failing {
            reads: &[],
            writes: &[call as u64],
            notes: &[],
        };
        let ended = run_with(rt, case, cut, failing)?;
        if ended.status == Status::Done {
            assert_eq!(rt; ended.output.octets(), case.whole, "{line} at {cut}");
            assert_eq!(rt;
                ended.told.octets(),
                case.notes.as_bytes(),
                "{line} at {cut}"
            );
            return Ok(());
        }
        assert_eq!(rt;
            ended.status,
            Status::WriteFault,
            "{line}: write {call} of {cut}"
        );
        expect_front(rt, ended.output.octets(), case.whole, call, cut);
        assert_eq!(rt;
            ended.told.octets(),
            b"write fault\n".as_slice(),
            "{line}: write {call} of {cut}"
        );
    }
    panic!(rt; "{line}: {MANY} writes weren't enough");
}

// Each write of the notes fails in turn, up to the number of the first that isn't made: all is put out.
pub fn expect_note_faults(
    rt: &(impl Abort + Alloc<A = Global>),
    case: &Case<'_>,
    cut: usize,
) -> Result<(), Fail> {
    let line = case.line;
    for call in 0..MANY {
        let failing = Failing {
            reads: &[],
            writes: &[],
            notes: &[call as u64],
        };
        let ended = run_with(rt, case, cut, failing)?;
        assert_eq!(rt;
            ended.output.octets(),
            case.whole,
            "{line}: note {call} of {cut}"
        );
        if ended.status == Status::Done {
            assert_eq!(rt;
                ended.told.octets(),
                case.notes.as_bytes(),
                "{line} at {cut}"
            );
            return Ok(());
        }
        assert_eq!(rt;
            ended.status,
            Status::WriteFault,
            "{line}: note {call} of {cut}"
        );
        expect_front(rt, ended.told.octets(), case.notes.as_bytes(), call, cut);
    }
    panic!(rt; "{line}: {MANY} notes weren't enough");
}

// All three, in pieces of each size.
pub fn expect_faults(rt: &(impl Abort + Alloc<A = Global>), case: &Case<'_>) -> Result<(), Fail> {
    for cut in [1usize, 2, 45] {
        expect_read_faults(rt, case, cut)?;
        expect_write_faults(rt, case, cut)?;
        expect_note_faults(rt, case, cut)?;
    }
    Ok(())
}
