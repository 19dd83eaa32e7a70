// The frames of a payload, as its table of contents has them.
ghost use Rattle.std.specs.Prelude.{◌≡◌, ◌+◌, ◌≤◌, ◌<◌, ◌++◌, length};
ghost use Rattle.amr_toc.specs.Viewed.{viewed};
ghost use Rattle.list_engine.specs.Payloads.{frame_said, frames_said, mark_text, quality_text};

use crate::line::Line;
use amr_toc::PayloadView;

/// Adds Q behind a type.
#[tactic(auto, using(crate::proofs::Texts::one_said, crate::proofs::Texts::zero_said))]
fn push_quality(line: &mut Line, q: bool)
    requires room { length line.old ≤ 10220 }

    ensures text { line.new ≡ line.old ++ quality_text q }
    ensures most { length line.new ≤ length line.old + 2 }
{
    if q {
        line.push(b"/1");
    } else {
        line.push(b"/0");
    }
}

/// Adds the mark of a frame that is damaged.
fn push_mark(line: &mut Line, damaged: bool)
    requires room { length line.old ≤ 10230 }

    ensures text { line.new ≡ line.old ++ mark_text damaged }
    ensures most { length line.new ≤ length line.old + 1 }
{
    if damaged {
        line.push(b"!");
    }
}

/// Adds a frame: its type and its Q as they stand in the table, and a mark where it is damaged.
#[inline(always)]
fn push_frame(line: &mut Line, view: &PayloadView<'_>, at: usize)
    requires frame { at < length (viewed view.now).frames }
    requires room { length line.old ≤ 10200 }

    ensures text { line.new ≡ line.old ++ frame_said view.now at }
    ensures most { length line.new ≤ length line.old + 23 }
{
    let entry = view.entry(at);
    line.number(u64::from(entry.ft));
    push_quality(line, entry.q);
    push_mark(line, view.damaged(at));
}

/// Adds all frames, with commas between them.
pub(crate) fn push_frames(line: &mut Line, view: &PayloadView<'_>)
    requires room { length line.old ≤ 1000 }

    ensures text { line.new ≡ line.old ++ frames_said view.now }
    ensures most { length line.new ≤ length line.old + 9216 }
{
    let count = view.frames();
    push_frame(line, view, 0);
    for at in 1..count {
        line.push(b",");
        push_frame(line, view, at);
    }
}
