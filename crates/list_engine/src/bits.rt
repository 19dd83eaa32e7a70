// The bits of the frames of a payload, a line each.
ghost use Rattle.std.specs.Prelude.{◌≡◌, ◌≤◌, ◌<◌, ◌++◌, length};
ghost use Rattle.amr_toc.specs.Viewed.{viewed};
ghost use Rattle.list_engine.specs.Payloads.{all_bits_said, bits_said};
ghost use Rattle.run_report.specs.Written.{Writes};

use crate::head::push_hex;
use crate::line::Line;
use amr_io::{Failed, Sink};
use amr_toc::PayloadView;

/// Adds the line of the bits of a frame, where it has any: its octets in hexadecimal, filled with
/// zero bits.
fn push_bits(line: &mut Line, view: &PayloadView<'_>, at: usize)
    requires frame { at < length (viewed view.now).frames }
    requires room { length line.old ≤ 500 }

    ensures text { line.new ≡ line.old ++ bits_said view.now at }
{
    let cell = view.frame(at);
    if cell.bits.len() > 0 {
        line.named(b"bits ", at as u64);
        line.push(b" ");
        push_hex(line, cell.bits.as_octets());
        line.push(b"\n");
    }
}

/// Writes the lines of the bits of all frames, each gathered in `line`.
///
/// `Failed` comes only where the output's faults rose. A front of them was then written.
pub(crate) fn write_bits<O: Sink>(
    line: &mut Line,
    view: &PayloadView<'_>,
    output: &mut O,
) -> Result<(), Failed>
    ensures { Writes O.Sink (all_bits_said view.now) output.old output.new result }
{
    for at in 0..view.frames() {
        line.clear();
        push_bits(line, view, at);
        match line.write(output) {
            Ok(()) => (),
            Err(failed) => return Err(failed),
        }
    }
    Ok(())
}
