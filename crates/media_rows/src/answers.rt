ghost use Rattle.amr_frame.specs.declared.codec.Codec.TheVariants.{AmrWb};
ghost use Rattle.media_rows.specs.Offers.{amr_with, answer, answer_with, asks, modes_wanted, noted, offer_with, plain_type, wanted, wide_type, worked_offer};
ghost use Rattle.media_rows.specs.Words.{aligned, plain};
ghost use Rattle.run_report.specs.Lines.{offer_line};
ghost use Rattle.run_report.specs.declared.end.RunEnd.TheVariants.{Done, LimitReached, NoAnswer, Sdp};
ghost use Rattle.spec_offer.specs.Answering.{answer_end, answer_out};
ghost use Rattle.spec_offer.specs.Answers.{unsuited};
ghost use Rattle.refusals.specs.declared.param.Param.TheVariants as param;
ghost use Rattle.refusals.specs.declared.media.FmtpRefusal.TheVariants as fmtp;
ghost use Rattle.refusals.specs.declared.answer.Why.TheVariants as reason;
ghost use Rattle.refusals.specs.declared.offer.OfferRefusal.TheVariants as why;
ghost use Rattle.std.specs.Prelude.{◌++◌, ◌∷◌, ◌≡◌, None, Some, [], codes, false, true};

/// The first reason against an offered type.
pub fn reasons_against_types()
    ensures codec { unsuited wanted (record (wide_type plain) { channels = 2 })
        ≡ Some reason.Codec }
    ensures channels { unsuited wanted (record (plain_type plain) { channels = 2 })
        ≡ Some reason.Channels }
    ensures no_channel { unsuited wanted (record (plain_type plain) { channels = 0 })
        ≡ Some reason.Channels }
    ensures crc { unsuited (record wanted { crc = false })
        (plain_type (record aligned { crc = true; sorting = true }))
        ≡ Some reason.Crc }
    ensures sorting { unsuited (record wanted { sorting = false })
        (plain_type (record aligned { sorting = true }))
        ≡ Some reason.Sorting }
    ensures interleaving { unsuited (record wanted { interleaving = 4 })
        (plain_type (record aligned { interleaving = Some 8 }))
        ≡ Some reason.Interleaving }
    ensures modes { unsuited (modes_wanted (0 ∷ 2 ∷ []))
        (plain_type (record plain { modes = Some (0 ∷ 1 ∷ []) }))
        ≡ Some reason.Modes }
{}

/// Types that suit: an aligned one without groups, and one that tells no modes.
pub fn suited_types()
    ensures no_groups { unsuited (record wanted { interleaving = 0 }) (plain_type aligned) ≡ None }
    ensures no_modes { unsuited (modes_wanted (0 ∷ 2 ∷ [])) (plain_type plain) ≡ None }
    ensures suits { unsuited wanted (plain_type plain) ≡ None }
{}

/// The answers to the worked offer and its variants.
pub fn answered_offers()
    ensures worked { answer wanted worked_offer
        ≡ answer_with (codes "a=fmtp:98 octet-align=1; mode-set=0,2,5,7\r\n") }
    ensures modes_added { answer (modes_wanted (0 ∷ 2 ∷ [])) (amr_with [])
        ≡ answer_with (codes "a=fmtp:98 mode-set=0,2\r\n") }
    ensures no_parameters { answer wanted (amr_with []) ≡ answer_with [] }
    ensures groups { answer (record wanted { interleaving = 8 })
        (amr_with (codes "a=fmtp:98 interleaving=8\n"))
        ≡ answer_with (codes "a=fmtp:98 octet-align=1; interleaving=8\r\n") }
{}

/// How answering ends: with an answer, with none, or with the first refusal or the limit.
pub fn ends_of_answers()
    ensures done { answer_end (asks wanted) 65536 worked_offer ≡ Done }
    ensures none_suits { answer_end (asks (modes_wanted (0 ∷ 2 ∷ []))) 65536 worked_offer
        ≡ NoAnswer }
    ensures nothing_then { answer (modes_wanted (0 ∷ 2 ∷ [])) worked_offer ≡ [] }
    ensures groups_too_large { answer_end (asks (record wanted { interleaving = 4 })) 65536
        (amr_with (codes "a=fmtp:98 interleaving=8\n"))
        ≡ NoAnswer }
    ensures refused { answer_end (asks wanted) 65536 (offer_with (codes "a=rtpmap:98 AMR") [])
        ≡ Sdp (why.BadMap 9) }
    ensures refused_parameters { answer_end (asks wanted) 65536
        (amr_with (codes "a=fmtp:98 crc=1; octet-align=0\n"))
        ≡ Sdp (why.Parameters 98 fmtp.Contradiction) }
    ensures past_the_limit { answer_end (asks wanted) 10 worked_offer ≡ LimitReached }
    ensures nothing_past_the_limit { answer_out (asks wanted) 10 worked_offer ≡ [] }
    ensures one_octet_under_one { answer_end (asks wanted) 1 (codes "v") ≡ Sdp why.NoAudio }
{}

/// What answering notes.
pub fn noted_offers()
    ensures worked { noted wanted worked_offer ≡ codes "type=97 refused=codec\n" }
    ensures none_suits { noted (modes_wanted (0 ∷ 2 ∷ [])) worked_offer
        ≡ codes "type=97 refused=codec\ntype=98 refused=modes\n" }
    ensures refused { noted wanted (offer_with (codes "a=rtpmap:98 AMR") []) ≡ [] }
    ensures f1 { offer_line (why.Parameters 98 fmtp.NoName) ≡ codes "refused=F1 pt=98\n" }
    ensures f2 { offer_line (why.Parameters 98 (fmtp.BadValue param.ModeSet))
        ≡ codes "refused=F2 pt=98 param=mode-set\n" }
    ensures f3 { offer_line (why.Parameters 98 (fmtp.Repeated param.Crc))
        ≡ codes "refused=F3 pt=98 param=crc\n" }
    ensures f4 { offer_line (why.Parameters 98 fmtp.Contradiction)
        ≡ codes "refused=F4 pt=98\n" }
    ensures f5 { offer_line why.NoAudio ≡ codes "refused=F5\n" }
    ensures f6 { offer_line (why.BadMap 9) ≡ codes "refused=F6 line=9\n" }
{}
