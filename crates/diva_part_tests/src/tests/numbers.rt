// The numbers that follow 0.
use diva_seed::next_number;

/// The first ten numbers after 0, as they are printed where the generator was proposed.
#[test]
fn numbers_after_zero(rt: HostRuntime) {
    let mut x = 0;
    for due in [
        0x3c6ef35f, 0x47502932, 0xd1ccf6e9, 0xaaf95334, 0x6252e503, 0x9f2ec686, 0x57fe6c2d,
        0xa3d95fa8, 0x81fdbee7, 0x94f0af1a,
    ] {
        x = next_number(x);
        assert_eq!(rt; x, due);
    }
}
