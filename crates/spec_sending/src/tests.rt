use crate::{SendFault, SendPlan};
use amr_frame::{Codec, Profile, ProfileFault};
use std::test::Fail;

// One AMR block a packet, with nothing sent again and payload type 96.
fn plain() -> SendPlan {
    SendPlan {
        profile: Profile::plain(Codec::Amr, 1),
        blocks: 1,
        length: 1,
        repeat: 0,
        skip_empty: false,
        cmr: 15,
        pt: 96,
        ssrc: 0,
        seq: 0,
        ts: 0,
    }
}

// Two packets of two blocks a group, in groups of up to four blocks.
fn grouped() -> SendPlan {
    let plan = plain();
    let profile = Profile {
        octet_aligned: true,
        interleaving: Some(4),
        ..plan.profile
    };
    SendPlan {
        profile,
        blocks: 2,
        length: 2,
        ..plan
    }
}

#[test]
fn the_first_broken_rule_is_named(rt: HostRuntime) -> Result<(), Fail> {
    let none = Profile {
        channels: 0,
        ..plain().profile
    };
    let rows: [(SendPlan, Result<(), SendFault>); 9] = [
        (plain(), Ok(())),
        (grouped(), Ok(())),
        (
            SendPlan {
                profile: none,
                pt: 128,
                ..plain()
            },
            Err(SendFault::Profile(ProfileFault::Channels)),
        ),
        (
            SendPlan {
                blocks: 64,
                repeat: 1,
                ..plain()
            },
            Err(SendFault::Blocks),
        ),
        (
            SendPlan {
                length: 2,
                ..plain()
            },
            Err(SendFault::Length),
        ),
        (
            SendPlan {
                blocks: 3,
                ..grouped()
            },
            Err(SendFault::Group),
        ),
        (
            SendPlan {
                blocks: 1,
                repeat: 1,
                ..grouped()
            },
            Err(SendFault::Repeat),
        ),
        (SendPlan { cmr: 8, ..plain() }, Err(SendFault::Request)),
        (SendPlan { pt: 128, ..plain() }, Err(SendFault::Number)),
    ];
    for (plan, wanted) in rows {
        assert_eq!(rt; plan.check(), wanted, "of {plan:?}");
    }
    Ok(())
}
