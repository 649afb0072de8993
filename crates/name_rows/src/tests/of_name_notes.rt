use asl_tree::path::NameSeg;
use name_notes::reserved::arguments_of;
use std::test::Fail;

// Names, and how many arguments they ask for.
static RESERVED: [(&[&NameSeg], Option<u64>); 7] = [
    (
        &[b"_STA", b"_INI", b"_CRS", b"_PRS", b"_DIS", b"_ON_"],
        Some(0),
    ),
    (
        &[b"_OFF", b"_PS0", b"_PS1", b"_PS2", b"_PS3", b"_BQC"],
        Some(0),
    ),
    (
        &[
            b"_SRS", b"_PTS", b"_WAK", b"_TTS", b"_BCM", b"_PSW", b"_EJ0", b"_LCK",
        ],
        Some(1),
    ),
    (&[b"_REG"], Some(2)),
    (&[b"_DSW", b"_OST"], Some(3)),
    (&[b"_DSM", b"_OSC"], Some(4)),
    (
        &[b"_ON0", b"_PS4", b"STA_", b"_HID", b"____", b"_on_"],
        None,
    ),
];

#[test]
fn reserved_names_ask_for_these_arguments(rt: HostRuntime) -> Result<(), Fail> {
    for (names, want) in &RESERVED {
        for name in *names {
            assert_eq!(rt; arguments_of(**name), *want);
        }
    }
    Ok(())
}
