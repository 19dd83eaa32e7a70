ghost use Rattle.amr_frame.specs.declared.codec.Codec.TheVariants.{Amr, AmrWb};
ghost use Rattle.media_rows.specs.Offers.{amr_with, map_to, media, no_types, offer_with, plain_type, texts, typed, worked, worked_offer};
ghost use Rattle.media_rows.specs.Words.{aligned, plain};
ghost use Rattle.refusals.specs.declared.param.Param.TheVariants as param;
ghost use Rattle.refusals.specs.declared.media.FmtpRefusal.TheVariants as fmtp;
ghost use Rattle.spec_offer.specs.Attributes.{format_in, map_in, media_in};
ghost use Rattle.spec_offer.specs.Offers.{offer_of};
ghost use Rattle.refusals.specs.declared.offer.OfferRefusal.TheVariants as why;
ghost use Rattle.std.specs.Prelude.{◌++◌, ◌∷◌, ◌≡◌, Err, None, Ok, Some, [], codes, true};

/// The lines of a text (RFC 4566, 5): a CR at the end is dropped, and nothing behind the last LF
/// is no line.
pub fn lines_of_texts()
    ensures none { texts [] ≡ [] }
    ensures ended { texts (codes "v=0\r\ns=-\n") ≡ codes "v=0" ∷ codes "s=-" ∷ [] }
    ensures not_ended { texts (codes "v=0\n\ns=-\r") ≡ codes "v=0" ∷ [] ∷ codes "s=-" ∷ [] }
    ensures inside { texts (codes "v=\r0\n") ≡ codes "v=\r0" ∷ [] }
    ensures one_return { texts (codes "v=0\r\r\n") ≡ codes "v=0\r" ∷ [] }
{}

/// What the line of an audio section says, and that of the parameters of a type.
pub fn read_media()
    ensures formats { media_in (codes "49170 RTP/AVP 97 128 x 98 97")
        ≡ Some (media (codes "RTP/AVP") (97 ∷ 98 ∷ [])) }
    ensures leading_zeros { media_in (codes "0 udp 007 7") ≡ Some (media (codes "udp") (7 ∷ [])) }
    ensures two_spaces { media_in (codes "9  RTP/AVP 98") ≡ None }
    ensures space_at_end { media_in (codes "9 RTP/AVP 98 ") ≡ None }
    ensures no_format { media_in (codes "9 RTP/AVP") ≡ None }
    ensures empty_text { format_in (codes "98 ") ≡ Some (record { pt = 98; text = [] }) }
    ensures no_space { format_in (codes "98") ≡ None }
{}

/// What a line that maps a payload type says.
pub fn read_attributes()
    ensures one_channel { map_in (codes "98 AMR/8000") ≡ Some (map_to 98 (codes "AMR") 8000 1) }
    ensures channels { map_in (codes "98 AMR/08000/02  ") ≡ Some (map_to 98 (codes "AMR") 8000 2) }
    ensures no_rate { map_in (codes "98 AMR") ≡ None }
    ensures no_name { map_in (codes "98 /8000") ≡ None }
    ensures inner_space { map_in (codes "98 AMR/8000 x") ≡ None }
    ensures above_127 { map_in (codes "128 AMR/8000") ≡ None }
    ensures rate_of_seven_digits { map_in (codes "98 AMR/0008000") ≡ None }
    ensures four_parts { map_in (codes "98 AMR/8000/1/1") ≡ None }
{}

/// The worked offer, and what it offers with its tenth line otherwise.
pub fn offered_types()
    ensures worked { offer_of worked_offer ≡ Ok worked }
    ensures no_parameters { offer_of (amr_with []) ≡ Ok (typed plain) }
    ensures small_letters { offer_of (offer_with (codes "a=rtpmap:98 amr/8000/1") [])
        ≡ Ok (typed plain) }
    ensures first_counts { offer_of (amr_with (codes "a=fmtp:98 crc=0\na=fmtp:98 =\n"))
        ≡ Ok (typed plain) }
    ensures passed_over { offer_of (codes "m=audio 9 x 96 98\na=rtpmap:96 AMR/16000\na=fmtp:96 =\n"
        ++ codes "a=rtpmap:98 AMR/8000\na=ptime:\na=ptime:020\na=ptime:30\n"
        ++ codes "m=video 9 x 99\na=maxptime:40\n")
        ≡ Ok (record no_types { types = plain_type plain ∷ []; ptime = Some 20 }) }
    ensures none { offer_of (codes "m=audio 9 x 0") ≡ Ok no_types }
    ensures behind_the_section { offer_of (codes "m=audio 9 x 0\nm=video\na=rtpmap:")
        ≡ Ok no_types }
{}

/// Texts that are no offer, and why.
pub fn refused_offers()
    ensures f5 { offer_of (codes "v=0\nm=audio\nm=video 9 x 98\n") ≡ Err why.NoAudio }
    ensures f5_empty { offer_of [] ≡ Err why.NoAudio }
    ensures f6_map { offer_of (offer_with (codes "a=rtpmap:98 AMR") (codes "a=fmtp:98 =1\n"))
        ≡ Err (why.BadMap 9) }
    ensures f6_media { offer_of (codes "m=audio 9 x\na=fmtp:98") ≡ Err (why.BadMap 1) }
    ensures f6_format { offer_of (codes "m=audio 9 x 98\na=fmtp:98\na=rtpmap:")
        ≡ Err (why.BadMap 2) }
    ensures f6_of_no_type { offer_of (codes "m=audio 9 x 98\na=rtpmap:300 x/1\n")
        ≡ Err (why.BadMap 2) }
    ensures parameters { offer_of (amr_with (codes "a=fmtp:98 crc=1; octet-align=0\n"))
        ≡ Err (why.Parameters 98 fmtp.Contradiction) }
    ensures of_its_codec { offer_of (amr_with (codes "a=fmtp:98 mode-set=8\n"))
        ≡ Err (why.Parameters 98 (fmtp.BadValue param.ModeSet)) }
    ensures first_type { offer_of (codes "m=audio 9 x 98 97\na=rtpmap:97 AMR/8000\na=fmtp:97 =1\n"
        ++ codes "a=rtpmap:98 AMR-WB/16000\na=fmtp:98 crc\n")
        ≡ Err (why.Parameters 98 (fmtp.BadValue param.Crc)) }
{}
