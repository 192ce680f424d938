//! The mask of the starts of groups, where as many fields came as are kept.
use crate::{Parser, Utf8Parser};

// One group of 32 fields, 32 of one, and one of 31 before one of one.
#[test]
fn starts_of_groups(rt: HostRuntime) {
    let rows: [(&[u8], u32); 3] = [
        (
            b"\x1B[0:0:0:0:0:0:0:0:0:0:0:0:0:0:0:0:0:0:0:0:0:0:0:0:0:0:0:0:0:0:0:0m",
            0x00000001,
        ),
        (b"\x1B[;;;;;;;;;;;;;;;;;;;;;;;;;;;;;;;m", 0xFFFFFFFF),
        (b"\x1B[::::::::::::::::::::::::::::::;m", 0x80000001),
    ];
    for (bytes, starts) in rows {
        let mut parser = Parser::<Utf8Parser>::new();
        parser.advance_all(&mut (), bytes);
        let params = parser.params();
        assert!(rt;
            params.starts == starts && params.len() == 32,
            "{starts:08X}"
        );
        assert!(rt; !parser.is_ignoring(), "{starts:08X}");
    }
}
