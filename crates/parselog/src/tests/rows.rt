//! Rows, and long ones by a reader that gives bytes again and again without storing a text.
use super::streams::Pattern;
use super::{Texts, are_texts_by_any, check};

/// Text, controls, control sequences and escape sequences.
pub static SEQUENCES: [Texts; 25] = [
    (b"", "", b""),
    (
        b"A\x7F\x0A",
        "print U+0041\nprint U+007F\nexecute 0A\n",
        b"A\x7F\x0A",
    ),
    (
        b"A\x18\x0A",
        "print U+0041\nexecute 18\nexecute 0A\n",
        b"A\x18\x0A",
    ),
    (b"\x1B[m", "csi_dispatch [0] - false 6D\n", b"\x1B[0m"),
    (
        b"\x1B[38:2:255:0:255;1m",
        "csi_dispatch [38:2:255:0:255;1] - false 6D\n",
        b"\x1B[38:2:255:0:255;1m",
    ),
    (
        b"\x1B[99999m",
        "csi_dispatch [65535] - false 6D\n",
        b"\x1B[65535m",
    ),
    (
        b"\x1B[?! h",
        "csi_dispatch [0] 3F21 true 68\n",
        b"\x1B[?0! h",
    ),
    (
        b"\x1B[1\x0Am",
        "execute 0A\ncsi_dispatch [1] - false 6D\n",
        b"\x0A\x1B[1m",
    ),
    (b"\x1B[1\x18m", "execute 18\nprint U+006D\n", b"\x18m"),
    (b"\x1B[1 2m", "", b""),
    (b"\x1B[4;m", "csi_dispatch [4;0] - false 6D\n", b"\x1B[4;0m"),
    (
        b"\x1B[?1049h",
        "csi_dispatch [1049] 3F false 68\n",
        b"\x1B[?1049h",
    ),
    (b"\x1B([", "esc_dispatch 28 false 5B\n", b"\x1B(["),
    (b"\x1B !\"#0", "esc_dispatch 2021 true 30\n", b"\x1B ! 0"),
    (b"\x1B[\x801m", "csi_dispatch [1] - false 6D\n", b"\x1B[1m"),
    (
        b"\x1B[1\x1B[2m",
        "csi_dispatch [2] - false 6D\n",
        b"\x1B[2m",
    ),
    (b"\x1B\x1Bc", "esc_dispatch - false 63\n", b"\x1Bc"),
    (
        b"\x1B\x7F\x0Ac",
        "execute 0A\nesc_dispatch - false 63\n",
        b"\x0A\x1Bc",
    ),
    (b"\x1B\x18c", "execute 18\nprint U+0063\n", b"\x18c"),
    (
        b"\x1B[?h\x1Bc",
        "csi_dispatch [0] 3F false 68\nesc_dispatch - false 63\n",
        b"\x1B[?0h\x1Bc",
    ),
    (b"\x1B[<?m", "", b""),
    (b"\x1B[1<\x0A2mA", "execute 0A\nprint U+0041\n", b"\x0AA"),
    (b"\x1B[99\x18A", "execute 18\nprint U+0041\n", b"\x18A"),
    (
        b"\x1B[0:0:0:0:0:0:0:0:0:0:0:0:0:0:0:0:0:0:0:0:0:0:0:0:0:0:0:0:0:0:0:0m",
        "csi_dispatch [0:0:0:0:0:0:0:0:0:0:0:0:0:0:0:0:0:0:0:0:0:0:0:0:0:0:0:0:0:0:0:0] - false 6D\n",
        b"\x1B[0:0:0:0:0:0:0:0:0:0:0:0:0:0:0:0:0:0:0:0:0:0:0:0:0:0:0:0:0:0:0:0m",
    ),
    (
        b"\x1B[::::::::::::::::::::::::::::::;m",
        "csi_dispatch [0:0:0:0:0:0:0:0:0:0:0:0:0:0:0:0:0:0:0:0:0:0:0:0:0:0:0:0:0:0:0;0] - false 6D\n",
        b"\x1B[0:0:0:0:0:0:0:0:0:0:0:0:0:0:0:0:0:0:0:0:0:0:0:0:0:0:0:0:0:0:0;0m",
    ),
];

/// Operating system commands, device control strings and strings that are ignored.
pub static COMMANDS: [Texts; 25] = [
    (
        b"\x1B]0;x\x1B\\",
        "osc_dispatch false 30 78\nesc_dispatch - false 5C\n",
        b"\x1B]0;x\x1BX\x9C\x1B\\",
    ),
    (b"\x1B]\x07", "osc_dispatch true -\n", b"\x1B]\x07"),
    (
        b"\x1B]2;ti\x07",
        "osc_dispatch true 32 7469\n",
        b"\x1B]2;ti\x07",
    ),
    (
        b"\x1B]a\x9Cb\x07",
        "osc_dispatch true 619C62\n",
        b"\x1B]a\x9Cb\x07",
    ),
    (
        b"\x1B]0;x\x18",
        "osc_dispatch false 30 78\nexecute 18\n",
        b"\x1B]0;x\x1BX\x9C\x18",
    ),
    (
        b"\x1B]a\x1B\x1B[m",
        "osc_dispatch false 61\ncsi_dispatch [0] - false 6D\n",
        b"\x1B]a\x1BX\x9C\x1B[0m",
    ),
    (b"\x1B];\x07", "osc_dispatch true - -\n", b"\x1B];\x07"),
    (
        b"\x1B]a\x0Ab\x1B[m",
        "osc_dispatch false 6162\ncsi_dispatch [0] - false 6D\n",
        b"\x1B]ab\x1BX\x9C\x1B[0m",
    ),
    (
        b"\x1B\x0A]a\x18",
        "execute 0A\nosc_dispatch false 61\nexecute 18\n",
        b"\x0A\x1B]a\x1BX\x9C\x18",
    ),
    (
        b"\x1B]\xC3\xA9\x07",
        "osc_dispatch true C3A9\n",
        b"\x1B]\xC3\xA9\x07",
    ),
    (
        b"\x1BP1$qm\x1B\\",
        "hook [1] 24 false 71\nput 6D\nunhook\nesc_dispatch - false 5C\n",
        b"\x1BP1$qm\x9C\x1B\\",
    ),
    (
        b"\x1BP1$qm\x1B",
        "hook [1] 24 false 71\nput 6D\nunhook\n",
        b"\x1BP1$qm\x9C",
    ),
    (
        b"\x1BP1\x9CqA\x7F\x80\x9C",
        "hook [1] - false 71\nput 41\nunhook\n",
        b"\x1BP1qA\x9C",
    ),
    (
        b"\x1BP1\x9CqA",
        "hook [1] - false 71\nput 41\n",
        b"\x1BP1qA",
    ),
    (
        b"\x1BPq\x18",
        "hook [0] - false 71\nunhook\nexecute 18\n",
        b"\x1BP0q\x9C\x18",
    ),
    (b"\x1BXa\x07b\x9Cc", "print U+0063\n", b"c"),
    (b"\x1BP1 2q\x9CA", "print U+0041\n", b"A"),
    (
        b"\x1B\x0APq",
        "execute 0A\nhook [0] - false 71\n",
        b"\x0A\x1BP0q",
    ),
    (b"\x1BP\x0Aq", "hook [0] - false 71\n", b"\x1BP0q"),
    (
        b"\x1BPqA\x1BPr",
        "hook [0] - false 71\nput 41\nunhook\nhook [0] - false 72\n",
        b"\x1BP0qA\x9C\x1BP0r",
    ),
    (b"\x1BP<1?qA\x9CB", "print U+0042\n", b"B"),
    (
        b"\x1BPq\x0A\x7F\x80\x9C",
        "hook [0] - false 71\nput 0A\nunhook\n",
        b"\x1BP0q\x0A\x9C",
    ),
    (b"\x1BP1\x18", "execute 18\n", b"\x18"),
    (b"\x1B_a\x18", "execute 18\n", b"\x18"),
    (
        b"\x1BPq\x1B\x1B[m",
        "hook [0] - false 71\nunhook\ncsi_dispatch [0] - false 6D\n",
        b"\x1BP0q\x9C\x1B[0m",
    ),
];

/// Characters of several bytes: the least and the greatest of each length, and broken ones.
pub static CHARACTERS: [Texts; 25] = [
    (b"\xC2\x80", "print U+0080\n", b"\xC2\x80"),
    (b"\xDF\xBF", "print U+07FF\n", b"\xDF\xBF"),
    (b"\xE0\xA0\x80", "print U+0800\n", b"\xE0\xA0\x80"),
    (b"\xE2\x82\xAC", "print U+20AC\n", b"\xE2\x82\xAC"),
    (b"\xEF\xBF\xBD", "print U+FFFD\n", b"\xEF\xBF\xBD"),
    (b"\xF0\x90\x80\x80", "print U+10000\n", b"\xF0\x90\x80\x80"),
    (b"\xF4\x8F\xBF\xBF", "print U+10FFFF\n", b"\xF4\x8F\xBF\xBF"),
    (
        b"\xF0\x9F\x98\x80\x90\x9C",
        "print U+1F600\nexecute 9C\n",
        b"\xF0\x9F\x98\x80\x9C",
    ),
    (b"\xC0A", "print U+0041\n", b"A"),
    (b"\xF5A", "print U+0041\n", b"A"),
    (b"\xE2\x82", "", b""),
    (
        b"\xED\xA0\x80",
        "print U+FFFD\nexecute 80\n",
        b"\xEF\xBF\xBD\x80",
    ),
    (
        b"\xE0\x80",
        "print U+FFFD\nexecute 80\n",
        b"\xEF\xBF\xBD\x80",
    ),
    (b"\xF4\x90", "print U+FFFD\n", b"\xEF\xBF\xBD"),
    (
        b"\xC3\xC3\xA9",
        "print U+FFFD\nprint U+00E9\n",
        b"\xEF\xBF\xBD\xC3\xA9",
    ),
    (
        b"\xC3\xE2\x82\xAC",
        "print U+FFFD\nprint U+20AC\n",
        b"\xEF\xBF\xBD\xE2\x82\xAC",
    ),
    (
        b"\xC3\x1B[m",
        "print U+FFFD\ncsi_dispatch [0] - false 6D\n",
        b"\xEF\xBF\xBD\x1B[0m",
    ),
    (
        b"\xC3\x1B\x1B[m",
        "print U+FFFD\ncsi_dispatch [0] - false 6D\n",
        b"\xEF\xBF\xBD\x1B[0m",
    ),
    (
        b"\xC2\x18A",
        "print U+FFFD\nexecute 18\nprint U+0041\n",
        b"\xEF\xBF\xBD\x18A",
    ),
    (
        b"\xE2\x82\x1Bc",
        "print U+FFFD\nesc_dispatch - false 63\n",
        b"\xEF\xBF\xBD\x1Bc",
    ),
    (b"\x1B\xC3c", "esc_dispatch - false 63\n", b"\x1Bc"),
    (
        b"\xF0\x1B[A",
        "print U+FFFD\ncsi_dispatch [0] - false 41\n",
        b"\xEF\xBF\xBD\x1B[0A",
    ),
    (
        b"\xF0\x9F\x18A",
        "print U+FFFD\nexecute 18\nprint U+0041\n",
        b"\xEF\xBF\xBD\x18A",
    ),
    (
        b"\xF0\x9F\x98\x1B\x1B[m",
        "print U+FFFD\ncsi_dispatch [0] - false 6D\n",
        b"\xEF\xBF\xBD\x1B[0m",
    ),
    (
        b"\xF0\x9F\x98\x1B]a\x07",
        "print U+FFFD\nosc_dispatch true 61\n",
        b"\xEF\xBF\xBD\x1B]a\x07",
    ),
];

/// The first bytes, others that come so often, and the last bytes.
type Text = (&'static [u8], &'static [u8], usize, &'static [u8]);

/// Sequences at the limits of fields, stored bytes and parts, and hostile ones of 100,000 bytes, that hardly end:
/// bytes, their lines, and their canonical text.
static LONG: [(Text, Text, Text); 12] = [
    (
        (b"\x1B[", b";", 31, b"m"),
        (b"csi_dispatch [0", b";0", 31, b"] - false 6D\n"),
        (b"\x1B[", b"0;", 31, b"0m"),
    ),
    (
        (b"\x1B[", b";", 32, b"m"),
        (b"csi_dispatch [0", b";0", 31, b"] - true 6D\n"),
        (b"\x1B[", b"0;", 32, b"m"),
    ),
    (
        (b"\x1BP", b";", 32, b"q"),
        (b"hook [0", b";0", 31, b"] - true 71\n"),
        (b"\x1BP", b"0;", 32, b"q"),
    ),
    (
        (b"\x1B]", &[b'a'; 1024], 1, b";b\x07"),
        (b"osc_dispatch true ", b"61", 1024, b"\n"),
        (b"\x1B]", b"a", 1024, b"\x07"),
    ),
    (
        (b"\x1B]", &[b'a'; 1023], 1, b";bc\x07"),
        (b"osc_dispatch true ", b"61", 1023, b" 62\n"),
        (b"\x1B]", b"a", 1023, b";b\x07"),
    ),
    (
        (b"\x1B]", b";", 16, b"x\x07"),
        (b"osc_dispatch true", b" -", 16, b"\n"),
        (b"\x1B]", b";", 15, b"\x07"),
    ),
    (
        (b"\x1B]a;;;;;;;;;;;;;;;;", &[b'x'; 1024], 1, b"\x07"),
        (b"osc_dispatch true 61", b" -", 15, b"\n"),
        (b"\x1B]a", b";", 15, b"\x07"),
    ),
    (
        (b"\x1B]", &[b'a'; 4000], 25, b""),
        (b"", b"", 0, b""),
        (b"", b"", 0, b""),
    ),
    (
        (b"\x1B[", &[b';'; 4000], 25, b"m"),
        (b"csi_dispatch [0", b";0", 31, b"] - true 6D\n"),
        (b"\x1B[", b"0;", 32, b"m"),
    ),
    (
        (b"\x1B[", &[b'9'; 4000], 25, b"m"),
        (b"csi_dispatch [65535] - false 6D\n", b"", 0, b""),
        (b"\x1B[65535m", b"", 0, b""),
    ),
    (
        (b"\x1B]", &[b';'; 4000], 25, b"\x07"),
        (b"osc_dispatch true", b" -", 16, b"\n"),
        (b"\x1B]", b";", 15, b"\x07"),
    ),
    (
        (b"\x1B", &[b' '; 4000], 25, b"0"),
        (b"esc_dispatch 2020 true 30\n", b"", 0, b""),
        (b"\x1B   0", b"", 0, b""),
    ),
];

fn pattern((front, part, times, end): Text) -> Pattern<'static> {
    Pattern::new(front, part, times, end)
}

#[test]
fn long_rows(rt: HostRuntime) {
    for (input, lines, canonical) in &LONG {
        let holds = are_texts_by_any(pattern(*input), pattern(*lines), pattern(*canonical));
        check(
            &rt,
            holds,
            "a part that comes so often in the lines:",
            lines.2,
        );
    }
}
