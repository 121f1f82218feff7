//! The names of the kinds of `newarray` (JVM Specification SE 8, 6.5, newarray).
ghost use Rattle.std.specs.Prelude.{◌≡◌, map, option_map};
ghost use Rattle.jo_insn.specs.ArrayKinds;
ghost use Rattle.jo_insn.specs.Rows.{seen_kind};

struct NamedKind {
    kind: u8,
    name: &'static str,
}

#[rattlefmt::skip]
static KINDS: [NamedKind; 5] = [
    NamedKind { kind: 4, name: "boolean" },
    NamedKind { kind: 5, name: "char" },
    NamedKind { kind: 8, name: "byte" },
    NamedKind { kind: 9, name: "short" },
    NamedKind { kind: 10, name: "int" },
];

/// The rows of the table, which callers know by the contract alone, so that no look-up is proved row by row.
#[tactic(auto, unfolding(crate::specs::ArrayKinds::kind_names))]
fn kinds() -> &'static [NamedKind]
    ensures { map seen_kind result.now ≡ ArrayKinds.kind_names }
{
    &KINDS
}

/// The name of a kind. `None` for one outside the profile.
#[tactic(auto, unfolding(crate::specs::ArrayKinds::name_of_kind))]
pub fn name_of_kind(kind: u8) -> Option<&'static str>
    ensures { option_map (λ n. n.now) result ≡ ArrayKinds.name_of_kind kind }
{
    for row in kinds() {
        if row.kind == kind {
            return Some(row.name);
        }
    }
    None
}

/// The kind with that name.
#[tactic(auto, unfolding(crate::specs::ArrayKinds::kind_named))]
pub fn kind_named(name: &[u8]) -> Option<u8>
    ensures { result ≡ ArrayKinds.kind_named name.now }
{
    for row in kinds() {
        if row.name.as_bytes() == name {
            return Some(row.kind);
        }
    }
    None
}

#[cfg(test)]
mod tests {
    use super::*;

    #[test]
    fn kinds_are_named(rt: HostRuntime) {
        for (kind, name) in [
            (4, "boolean"),
            (5, "char"),
            (8, "byte"),
            (9, "short"),
            (10, "int"),
        ] {
            assert!(rt; name_of_kind(kind) == Some(name), "{kind}");
            assert!(rt; kind_named(name.as_bytes()) == Some(kind), "{name}");
        }
        for kind in [0, 3, 6, 7, 11, 12, 255] {
            assert!(rt; name_of_kind(kind).is_none(), "{kind}");
        }
        for name in ["", "float", "double", "long", "Int", "int ", "in"] {
            assert!(rt; kind_named(name.as_bytes()).is_none(), "{name}");
        }
    }
}
