//! How texts spell the nodes of a graph.
ghost use Rattle.std.specs.Prelude.{◌≡◌, ◌++◌, ◌∷◌, ◌<◌, length, IfOk, OnOk};
ghost use Rattle.std.specs.Fmt.{decimal};
ghost use Rattle.dep_nodes.specs.Nodes.{node_named, sites_of};
ghost use Rattle.dep_nodes.specs.NumberedChains.{name_at};
ghost use Rattle.chain_report.specs.Nodes.{numbered, numbered_site, spelled_at, spelled_class, spelled_context, spelled_kind, spelled_node, spelled_site, spelled_sites};

use dep_nodes::{DependenceGraph, NodeKind, NodeName, SiteList};
use jo_ids::{ClassId, Memory, MethodId, NodeId, SiteId};
use jo_prog::program::{Program, class_at};
use jo_prog::sites::Site;
use jo_prog::spelling::push_method;
use jo_text::{Name, push_escaped};
use std::alloc::Global;

fn push_number(alloc: Global, out: &mut Vec<u8>, n: u32) -> Result<(), Memory>
    ensures { OnOk result (out.new.items ≡ out.old.items ++ 32 ∷ decimal n) }
{
    out.push(b' ')?;
    let digits = n.to_string(alloc)?;
    out.extend_from_slice(digits.as_bytes())
}

fn push_numbered(alloc: Global, out: &mut Vec<u8>, word: &[u8], n: u32) -> Result<(), Memory>
    ensures { OnOk result (out.new.items ≡ out.old.items ++ numbered word.now n) }
{
    out.extend_from_slice(word)?;
    push_number(alloc, out, n)
}

/// Adds the spelling of a node's kind. A refusal may leave a part of it.
pub fn push_kind(alloc: Global, out: &mut Vec<u8>, kind: NodeKind) -> Result<(), Memory>
    ensures { OnOk result (out.new.items ≡ out.old.items ++ spelled_kind kind) }
{
    match kind {
        NodeKind::Entry => out.extend_from_slice(b"entry"),
        NodeKind::Exit => Ok(()),
        NodeKind::Instr(pc) => push_numbered(alloc, out, b"instr", pc),
        NodeKind::Call(pc) => push_numbered(alloc, out, b"call", pc),
        NodeKind::RetVal(pc) => push_numbered(alloc, out, b"retval", pc),
        NodeKind::RetKind(pc) => push_numbered(alloc, out, b"retkind", pc),
        NodeKind::Throw(pc) => push_numbered(alloc, out, b"throw", pc),
        NodeKind::Catch(row) => push_numbered(alloc, out, b"catch", row),
        NodeKind::Poll(pc, target) => {
            push_numbered(alloc, out, b"poll", pc)?;
            push_number(alloc, out, target)
        }
        NodeKind::XPoll(pc, row) => {
            push_numbered(alloc, out, b"xpoll", pc)?;
            push_number(alloc, out, row)
        }
        NodeKind::Arg(pc, place) => {
            push_numbered(alloc, out, b"arg", pc)?;
            push_number(alloc, out, place)
        }
        NodeKind::Param(place) => push_numbered(alloc, out, b"param", place),
        NodeKind::Kind => out.extend_from_slice(b"kind"),
        NodeKind::Value => out.extend_from_slice(b"value"),
        NodeKind::Thrown => out.extend_from_slice(b"thrown"),
    }
}

fn push_class(out: &mut Vec<u8>, program: &Program, class: ClassId) -> Result<(), Memory>
    ensures { OnOk result (out.new.items ≡ out.old.items ++ spelled_class program.now class) }
{
    match class_at(program, class) {
        Some(class) => push_escaped(out, class.name.as_slice()),
        None => Ok(()),
    }
}

fn push_at(
    alloc: Global,
    out: &mut Vec<u8>,
    program: &Program,
    method: MethodId,
    pc: u32,
) -> Result<(), Memory>
    ensures { OnOk result (out.new.items ≡ out.old.items ++ spelled_at program.now method pc) }
{
    push_method(out, program, method)?;
    out.push(b'@')?;
    let digits = pc.to_string(alloc)?;
    out.extend_from_slice(digits.as_bytes())
}

fn push_site(alloc: Global, out: &mut Vec<u8>, program: &Program, site: &Site) -> Result<(), Memory>
    ensures { OnOk result (out.new.items ≡ out.old.items ++ spelled_site program.now site.now) }
{
    match site {
        Site::Text => out.extend_from_slice(b"string"),
        Site::Args => out.extend_from_slice(b"args"),
        Site::Alloc { method, pc } => push_at(alloc, out, program, *method, *pc),
        Site::Call { method, pc } => push_at(alloc, out, program, *method, *pc),
        Site::Raise { method, pc, class } => {
            push_at(alloc, out, program, *method, *pc)?;
            out.push(b'!')?;
            push_class(out, program, *class)
        }
    }
}

/// Adds the spelling of the site with that number, nothing where there is none. A refusal may leave a part of it.
pub fn push_numbered_site(
    alloc: Global,
    out: &mut Vec<u8>,
    program: &Program,
    site: SiteId,
) -> Result<(), Memory>
    ensures { OnOk result (out.new.items ≡ out.old.items ++ numbered_site program.now site) }
{
    match program.sites.as_slice().get(site.number() as usize) {
        Some(site) => push_site(alloc, out, program, site),
        None => Ok(()),
    }
}

fn push_sites(
    alloc: Global,
    out: &mut Vec<u8>,
    program: &Program,
    sites: &SiteList,
) -> Result<(), Memory>
    ensures { OnOk result (out.new.items ≡ out.old.items ++ spelled_sites program.now (sites_of sites.now)) }
{
    match sites.len {
        0 => Ok(()),
        1 => push_numbered_site(alloc, out, program, sites.first),
        _ => {
            push_numbered_site(alloc, out, program, sites.first)?;
            out.push(b',')?;
            push_numbered_site(alloc, out, program, sites.second)
        }
    }
}

/// Adds the spelling of a context. A refusal may leave a part of it.
pub fn push_context(
    alloc: Global,
    out: &mut Vec<u8>,
    program: &Program,
    sites: &SiteList,
) -> Result<(), Memory>
    ensures { OnOk result (out.new.items ≡ out.old.items ++ spelled_context program.now (sites_of sites.now)) }
{
    out.push(b'[')?;
    push_sites(alloc, out, program, sites)?;
    out.push(b']')?;
    Ok(())
}

/// Adds the spelling of a node: its method, its context, its kind. What names nothing of the program is left out. A refusal may
/// leave a part of it.
pub fn push_node(
    alloc: Global,
    out: &mut Vec<u8>,
    program: &Program,
    name: &NodeName,
) -> Result<(), Memory>
    ensures { OnOk result (out.new.items ≡ out.old.items ++ spelled_node program.now (node_named name.now)) }
{
    push_method(out, program, name.method)?;
    out.push(b' ')?;
    push_context(alloc, out, program, &name.sites)?;
    out.push(b' ')?;
    push_kind(alloc, out, name.kind)
}

/// The spelling of a node.
pub fn print_node(
    alloc: Global,
    program: &Program,
    graph: &DependenceGraph,
    node: NodeId,
) -> Result<Name, Memory>
    requires { node < length graph.now }
    ensures { IfOk result (λ text. text ≡ spelled_node program.now (name_at graph.now node)) }
{
    let mut text = Vec::new(alloc);
    push_node(alloc, &mut text, program, name_of(graph, node))?;
    Ok(Name::from(text))
}

/// The name of a node by its number.
pub(crate) fn name_of(graph: &DependenceGraph, node: NodeId) -> &NodeName
    requires { node < length graph.now }
    ensures { node_named result.now ≡ name_at graph.now node }
{
    graph.node(node)
}
