// What a payload that is read says.
ghost use Rattle.std.specs.Prelude.{◌≡◌, ◌+◌, ◌≤◌, ◌++◌, length};
ghost use Rattle.list_engine.specs.Payloads.{payload_said};

use crate::frames::push_frames;
use crate::line::Line;
use amr_toc::PayloadView;

/// Adds what a payload says, and the mode of the desk after it.
pub(crate) fn push_payload(line: &mut Line, view: &PayloadView<'_>, mode: u8)
    requires room { length line.old ≤ 500 }

    ensures text { line.new ≡ line.old ++ payload_said view.now mode }
    ensures most { length line.new ≤ length line.old + 9400 }
{
    line.named(b" cmr=", u64::from(view.cmr()));
    line.named(b" mode=", u64::from(mode));
    line.named(b" stride=", u64::from(view.stride()));
    line.named(b" index=", u64::from(view.index()));
    line.named(b" blocks=", view.blocks() as u64);
    line.push(b" frames=");
    push_frames(line, view);
}
