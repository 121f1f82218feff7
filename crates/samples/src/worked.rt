//! The worked program: class Main, whose main is one straight line.
ghost use Rattle.std.specs.Prelude.{◌≡◌, [], ◌∷◌, take, drop, codes};

/// Main with the natives secret()I, get()I, show(I)V and main()V: get, istore_0, secret, istore_1, iload_0, iconst_1, iadd,
/// show, return.
static MAIN: [u8; 206] = [
    0xca, 0xfe, 0xba, 0xbe, 0, 0, 0, 0x34, 0, 0x13, 1, 0, 4, b'M', b'a', b'i', b'n', 7, 0, 1, 1, 0,
    16, b'j', b'a', b'v', b'a', b'/', b'l', b'a', b'n', b'g', b'/', b'O', b'b', b'j', b'e', b'c',
    b't', 7, 0, 3, 1, 0, 6, b's', b'e', b'c', b'r', b'e', b't', 1, 0, 3, b'(', b')', b'I', 1, 0, 3,
    b'g', b'e', b't', 1, 0, 4, b's', b'h', b'o', b'w', 1, 0, 4, b'(', b'I', b')', b'V', 1, 0, 4,
    b'm', b'a', b'i', b'n', 1, 0, 3, b'(', b')', b'V', 1, 0, 4, b'C', b'o', b'd', b'e', 12, 0, 7,
    0, 6, 10, 0, 2, 0, 13, 12, 0, 5, 0, 6, 10, 0, 2, 0, 15, 12, 0, 8, 0, 9, 10, 0, 2, 0, 17, 0,
    0x20, 0, 2, 0, 4, 0, 0, 0, 0, 0, 4, 1, 8, 0, 5, 0, 6, 0, 0, 1, 8, 0, 7, 0, 6, 0, 0, 1, 8, 0, 8,
    0, 9, 0, 0, 0, 8, 0, 10, 0, 11, 0, 1, 0, 12, 0, 0, 0, 0x1b, 0, 2, 0, 2, 0, 0, 0, 15, 0xb8, 0,
    14, 0x3b, 0xb8, 0, 16, 0x3c, 0x1a, 4, 0x60, 0xb8, 0, 18, 0xb1, 0, 0, 0, 0, 0, 0,
];

const HEAD: &str = "levels = [\"low\", \"high\"]
flows = [[\"low\", \"high\"]]
entry = \"Main.main()V\"
";

const LABELS: &str = "[sources]
\"Main.get()I\" = \"low\"
\"Main.secret()I\" = \"high\"
[sinks]
\"Main.show(I)V\" = \"low\"
";

const REPORT: &str = "joana report 1
refused chain
observer low
from Main.main()V [] retval 4
data Main.main()V [] instr 7
data Main.main()V [] instr 8
data Main.main()V [] instr 10
data Main.main()V [] arg 11 0
data Main.main()V [] call 11
end
";

/// Class Main, 206 bytes, which shows what `get` gave. Its pool ends before place 127, its code begins at 185. With the byte 0x1b
/// at place 193 it shows what `secret` gave.
pub fn worked_class() -> &'static [u8; 206]
    ensures head { take 10 result.now ≡ 0xca ∷ 0xfe ∷ 0xba ∷ 0xbe ∷ 0 ∷ 0 ∷ 0 ∷ 0x34 ∷ 0 ∷ 19 ∷ [] }
    ensures main { take 15 (drop 185 result.now) ≡ 0xb8 ∷ 0 ∷ 14 ∷ 0x3b ∷ 0xb8 ∷ 0 ∷ 16 ∷ 0x3c ∷ 0x1a ∷ 4 ∷ 0x60 ∷ 0xb8 ∷ 0 ∷ 18 ∷ 0xb1 ∷ [] }
{
    &MAIN
}

/// The levels, the flow and the entry of its policy.
pub fn worked_head() -> &'static str
    ensures { result.now ≡ codes "levels = [\"low\", \"high\"]\nflows = [[\"low\", \"high\"]]\nentry = \"Main.main()V\"\n" }
{
    HEAD
}

/// The labels of its policy: `get` and `show` are low, `secret` is high.
pub fn worked_labels() -> &'static str
    ensures { result.now ≡ codes "[sources]\n\"Main.get()I\" = \"low\"\n\"Main.secret()I\" = \"high\"\n[sinks]\n\"Main.show(I)V\" = \"low\"\n" }
{
    LABELS
}

/// The report on the variant that shows the secret.
pub fn worked_report() -> &'static str
    ensures { take 72 result.now ≡ codes "joana report 1\nrefused chain\nobserver low\nfrom Main.main()V [] retval 4\n" }
{
    REPORT
}
