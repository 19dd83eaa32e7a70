//! What a strict format asks of a payload besides its grammar: P11 to P13. It is this project's own.
ghost use Rattle.std.specs.Prelude.{◌≡◌, ◌≤◌, ◌<◌, length};
ghost use Rattle.amr_payload.specs.Comparing.{outside_in};
ghost use Rattle.amr_toc.specs.Viewed.{format_of, octets_of, said, viewed};
ghost use Rattle.spec_payload.specs.Strict.{first_difference as difference_of, has_mode as mode_of, mode_outside as outside_of, not_canonical as uncanonical_of, request_outside as request_of, strict_refusal as strict_of, takes_type as type_of};
ghost use Rattle.amr_frame.specs.Tables.{is_mode as mode_in};
ghost use Rattle.spec_payload.specs.Grammar.{text};

use crate::compare::aligned_difference;
use crate::pad::pad_difference;
use amr_frame::{Codec, Kind, Profile, kind_of};
use amr_toc::{PayloadRefusal, PayloadView};

/// The first of P11 to P13 that holds of a payload of the format.
pub(crate) fn strict_refusal(profile: &Profile, view: &PayloadView<'_>) -> Option<PayloadRefusal>
    requires { format_of view.now ≡ profile.now }
    ensures { result ≡ strict_of profile.now (said view.now) (octets_of view.now) }
{
    if let Some(why) = not_canonical(profile, view) {
        return Some(why);
    }
    if let Some(why) = request_outside(profile, view) {
        return Some(why);
    }
    mode_outside(profile, view)
}

/// P11: the octets aren't the canonical ones of their value.
fn not_canonical(profile: &Profile, view: &PayloadView<'_>) -> Option<PayloadRefusal>
    requires { format_of view.now ≡ profile.now }
    ensures { result ≡ uncanonical_of profile.now (said view.now) (octets_of view.now) }
{
    match first_difference(profile, view) {
        Some(octet) => Some(PayloadRefusal::NotCanonical { octet }),
        None => None,
    }
}

/// The first octet in which a payload isn't the canonical one of its value.
fn first_difference(profile: &Profile, view: &PayloadView<'_>) -> Option<usize>
    requires { format_of view.now ≡ profile.now }
    ensures { result ≡ difference_of (octets_of view.now) (text profile.now (said view.now)) }
{
    if profile.octet_aligned {
        aligned_difference(profile, view)
    } else {
        pad_difference(profile, view)
    }
}

/// P12: the codec mode request is neither 15 nor a mode of the format.
fn request_outside(profile: &Profile, view: &PayloadView<'_>) -> Option<PayloadRefusal>
    ensures { result ≡ request_of profile.now (said view.now).cmr }
{
    let cmr = view.cmr();
    if cmr == 15 || has_mode(profile, cmr) {
        return None;
    }
    Some(PayloadRefusal::RequestOutside { cmr })
}

/// P13: the first speech frame has a mode that the format doesn't have.
fn mode_outside(profile: &Profile, view: &PayloadView<'_>) -> Option<PayloadRefusal>
    ensures { result ≡ outside_of profile.now (said view.now).frames }
{
    for at in 0..view.frames() {
        if let Some(why) = outside_at(profile, view, at) {
            return Some(why);
        }
    }
    None
}

/// The refusal of frame `at`, where it is speech of a mode that the format doesn't have.
fn outside_at(profile: &Profile, view: &PayloadView<'_>, at: usize) -> Option<PayloadRefusal>
    requires { at < length (viewed view.now).frames }
    ensures { result ≡ outside_in profile.now (said view.now).frames at }
{
    let ft = view.entry(at).ft;
    if takes_type(profile, ft) {
        None
    } else {
        Some(PayloadRefusal::ModeOutside { entry: at, ft })
    }
}

/// Whether the format takes frames of a type: any but speech of a mode that it doesn't have.
fn takes_type(profile: &Profile, ft: u8) -> bool
    requires { ft ≤ 15 }
    ensures { result ≡ type_of profile.now ft }
{
    !is_mode(profile.codec, ft) || has_mode(profile, ft)
}

/// Whether a frame type is a speech mode.
fn is_mode(codec: Codec, ft: u8) -> bool
    requires { ft ≤ 15 }
    ensures { result ≡ mode_in codec ft }
{
    match kind_of(codec, ft) {
        Kind::Speech => true,
        Kind::Sid | Kind::Lost | Kind::Empty | Kind::Reserved => false,
    }
}

/// Whether the format has a mode: bit `mode` of its modes.
fn has_mode(profile: &Profile, mode: u8) -> bool
    requires { mode ≤ 15 }
    ensures { result ≡ mode_of profile.now mode }
{
    profile.modes >> mode as u32 & 1 == 1
}
