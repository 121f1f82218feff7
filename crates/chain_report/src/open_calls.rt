//! The calls that a chain has entered and not left.
ghost use Rattle.std.specs.Prelude.{◌≡◌, IfOk, option_map};
ghost use Rattle.std.specs.Str.{bytes_eq};
ghost use Rattle.dep_nodes.specs.Nodes.{node_named, sites_of};
ghost use Rattle.dep_nodes.specs.Chains.{adv, begun_call as call_begun, ended_call as call_ended, opened, returned, same_site as are_one};
ghost use Rattle.chain_report.specs.OpenCalls.{calls_of, site_of, steps_by, IsStepped};

use dep_nodes::{EdgeKind, NodeKind, NodeName, SiteList, Word};
use jo_ids::{Memory, MethodId};

/// A call of an instance.
#[derive(Clone, Copy)]
pub(crate) struct OpenCall {
    method: MethodId,
    sites: SiteList,
    pc: u32,
}

/// The call that begins at a node.
fn begun_call(name: &NodeName) -> Option<OpenCall>
    ensures { option_map site_of result ≡ call_begun (node_named name.now) }
{
    match name.kind {
        NodeKind::Arg(pc, _) | NodeKind::Call(pc) => Some(OpenCall {
            method: name.method,
            sites: name.sites,
            pc,
        }),
        _ => None,
    }
}

/// The call that ends at a node.
fn ended_call(name: &NodeName) -> Option<OpenCall>
    ensures { option_map site_of result ≡ call_ended (node_named name.now) }
{
    match name.kind {
        NodeKind::RetVal(pc) | NodeKind::RetKind(pc) | NodeKind::Throw(pc) => Some(OpenCall {
            method: name.method,
            sites: name.sites,
            pc,
        }),
        _ => None,
    }
}

fn same_sites(a: &SiteList, b: &SiteList) -> bool
    ensures { result ≡ bytes_eq (sites_of a.now) (sites_of b.now) }
{
    match (a.len, b.len) {
        (0, 0) => true,
        (0, _) | (_, 0) => false,
        (1, 1) => a.first.number() == b.first.number(),
        (1, _) | (_, 1) => false,
        _ => a.first.number() == b.first.number() && a.second.number() == b.second.number(),
    }
}

fn same_call(a: &OpenCall, b: &OpenCall) -> bool
    ensures { result ≡ are_one (site_of a.now) (site_of b.now) }
{
    a.method.number() == b.method.number() && (same_sites(&a.sites, &b.sites) && a.pc == b.pc)
}

fn open_call(calls: &mut Vec<OpenCall>, from: &NodeName) -> Result<bool, Memory>
    ensures { IfOk result (λ may. IsStepped may (opened (calls_of calls.old.items) (call_begun (node_named from.now))) (calls_of calls.new.items)) }
{
    match begun_call(from) {
        None => Ok(false),
        Some(call) => {
            calls.push(call)?;
            Ok(true)
        }
    }
}

fn close_call(calls: &mut Vec<OpenCall>, to: &NodeName) -> bool
    ensures { IsStepped result (returned (calls_of calls.old.items) (call_ended (node_named to.now))) (calls_of calls.new.items) }
{
    match ended_call(to) {
        None => false,
        Some(call) => match calls.pop() {
            None => true,
            Some(last) => same_call(&last, &call),
        },
    }
}

/// Goes on by an edge; false where it may not stand there in a valid chain.
pub(crate) fn go_along(
    calls: &mut Vec<OpenCall>,
    from: &NodeName,
    kind: EdgeKind,
    to: &NodeName,
) -> Result<bool, Memory>
    ensures { IfOk result (λ may. IsStepped may (adv (calls_of calls.old.items) (node_named from.now) kind (node_named to.now)) (calls_of calls.new.items)) }
{
    match kind {
        EdgeKind::Data | EdgeKind::Control | EdgeKind::Out => Ok(true),
        EdgeKind::Arg | EdgeKind::Call => open_call(calls, from),
        EdgeKind::Ret => Ok(close_call(calls, to)),
        EdgeKind::Heap | EdgeKind::Fork => {
            calls.clear();
            Ok(true)
        }
    }
}

/// Goes on by a step.
pub(crate) fn go_on(
    calls: &mut Vec<OpenCall>,
    from: &NodeName,
    word: Word,
    to: &NodeName,
) -> Result<bool, Memory>
    ensures { IfOk result (λ may. IsStepped may (steps_by (calls_of calls.old.items) (node_named from.now) word (node_named to.now)) (calls_of calls.new.items)) }
{
    match word {
        Word::Edge(kind) => go_along(calls, from, kind, to),
        Word::Pass => Ok(true),
    }
}
