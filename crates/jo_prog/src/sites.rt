//! The places of a program at which objects are made, and its calls: one list that the program alone determines.

ghost use Rattle.std.specs.Prelude.{◌≡◌, ◌≤◌, ◌<◌, ◌^◌, ◌++◌, true, false, length, OnOk, IfOk};
ghost use Rattle.std.specs.List.Sorted.{IsPartitionPoint};
ghost use Rattle.jo_prog.specs.Sites;
ghost use Rattle.jo_prog.specs.SiteOrder.{comes_before, is_before, IsInOrder};
ghost use Rattle.jo_prog.specs.Sites.{opcode_of, class_raised, may_raise, insns_in, made_at, raised_among, insn_sites, sites_among, sites_of_method, sites_of};

use crate::lists::add;
use crate::program::{Code, Method};
use jo_ids::{ClassId, Id, List, Memory, MethodId, SiteId};
use jo_insn::{Insn, Placed, decode};
use std::alloc::{AllocError, Global};

/// How many bytes code has at most.
const LONGEST_CODE: usize = 65_535;

/// Where an object is made, or a call.
#[derive(Clone, Copy, PartialEq, Eq)]
pub enum Site {
    /// All string constants.
    Text,
    /// The entry's array.
    Args,
    /// An allocating instruction.
    Alloc {
        method: MethodId,
        pc: u32,
    },
    Call {
        method: MethodId,
        pc: u32,
    },
    /// An instruction that raises an exception of that class, which the machine makes.
    Raise {
        method: MethodId,
        pc: u32,
        class: ClassId,
    },
}

/// Why the machine raises an exception.
#[derive(Clone, Copy, PartialEq, Eq)]
pub enum Cause {
    ZeroDivisor,
    NullBase,
    FailingCast,
    WrongElement,
    NegativeLength,
    BadIndex,
    /// Of a thread that was started before.
    SecondStart,
    /// The receiver's class doesn't implement the interface.
    MissingInterface,
}

/// In the order of the numbers of their classes.
const CAUSES: [Cause; 8] = [
    Cause::ZeroDivisor,
    Cause::NullBase,
    Cause::FailingCast,
    Cause::WrongElement,
    Cause::NegativeLength,
    Cause::BadIndex,
    Cause::SecondStart,
    Cause::MissingInterface,
];

/// The opcode of an instruction, without the `wide` before it.
pub fn opcode_of(insn: Insn) -> u8
    ensures { result ≡ opcode_of insn }
{
    match insn {
        Insn::Plain(op) => op,
        Insn::Local { op, .. } => op,
        Insn::Iinc { .. } => 132,
        Insn::Push { op, .. } => op,
        Insn::Pooled { op, .. } => op,
        Insn::Array(_) => 188,
        Insn::Jump { op, .. } => op,
        Insn::TableSwitch { .. } => 170,
        Insn::LookupSwitch { .. } => 171,
    }
}

/// The prelude's class of the exception.
pub fn class_raised(cause: Cause) -> ClassId
    ensures { result ≡ class_raised cause }
{
    let number = match cause {
        Cause::ZeroDivisor => 8,
        Cause::NullBase => 9,
        Cause::FailingCast => 10,
        Cause::WrongElement => 12,
        Cause::NegativeLength => 13,
        Cause::BadIndex => 18,
        Cause::SecondStart => 19,
        Cause::MissingInterface => 22,
    };
    Id::of(number)
}

fn is_array_access(op: u8) -> bool
    ensures { result ≡ Sites.is_array_access op }
{
    matches!(op, 46 | 50..=53 | 79 | 83..=86)
}

/// Whether an instruction with that opcode may raise an exception for that cause.
pub fn may_raise(cause: Cause, op: u8) -> bool
    ensures { result ≡ may_raise cause op }
{
    match cause {
        Cause::ZeroDivisor => op == 108 || op == 112,
        Cause::NullBase => is_array_access(op) || matches!(op, 180..=183 | 185 | 190..=191),
        Cause::FailingCast => op == 192,
        Cause::WrongElement => op == 83,
        Cause::NegativeLength => op == 188 || op == 189,
        Cause::BadIndex => is_array_access(op),
        Cause::SecondStart => op == 182 || op == 183 || op == 185,
        Cause::MissingInterface => op == 185,
    }
}

/// The instructions from the first on, up to the first place where none stands: the end, in the code of a class file.
pub fn instructions(alloc: Global, bytes: &[u8]) -> Result<List<Placed>, Memory>
    requires { length bytes.now < 2 ^ 16 }
    ensures { IfOk result (λ insns. insns ≡ insns_in bytes.now) }
{
    let mut insns = List::new(alloc);
    let mut pc = 0;
    while let Ok((insn, next)) = decode(bytes, pc) {
        match insns.push(Placed { pc, insn, next }) {
            Ok(()) => pc = next,
            Err((_, memory)) => return Err(memory),
        }
    }
    Ok(insns)
}

/// Adds the allocation or call of that opcode.
fn add_made(sites: &mut List<Site>, method: MethodId, pc: u32, op: u8) -> Result<(), Memory>
    ensures { OnOk result (sites.new ≡ sites.old ++ made_at method pc op) }
{
    match op {
        187..=189 => add(sites, Site::Alloc { method, pc }),
        182..=185 => add(sites, Site::Call { method, pc }),
        _ => Ok(()),
    }
}

/// Adds the exceptions of that opcode for one of these causes.
fn add_raised(
    sites: &mut List<Site>,
    method: MethodId,
    pc: u32,
    op: u8,
    among: &[Cause],
) -> Result<(), Memory>
    ensures { OnOk result (sites.new ≡ sites.old ++ raised_among method pc op among.now) }
{
    for cause in among {
        if may_raise(*cause, op) {
            let class = class_raised(*cause);
            add(sites, Site::Raise { method, pc, class })?;
        }
    }
    Ok(())
}

/// Adds the sites of an instruction.
fn add_insn(sites: &mut List<Site>, method: MethodId, placed: &Placed) -> Result<(), Memory>
    ensures { OnOk result (sites.new ≡ sites.old ++ insn_sites method placed.now) }
{
    let op = opcode_of(placed.insn);
    add_made(sites, method, placed.pc, op)?;
    add_raised(sites, method, placed.pc, op, &CAUSES)
}

fn add_insns(sites: &mut List<Site>, method: MethodId, insns: &[Placed]) -> Result<(), Memory>
    ensures { OnOk result (sites.new ≡ sites.old ++ sites_among method insns.now) }
{
    for placed in insns {
        add_insn(sites, method, placed)?;
    }
    Ok(())
}

/// Adds the sites of a method's code.
fn add_code(
    alloc: Global,
    sites: &mut List<Site>,
    method: MethodId,
    code: &Option<Code>,
) -> Result<(), Memory>
    ensures { OnOk result (sites.new ≡ sites.old ++ sites_of_method method code.now) }
{
    let Some(code) = code else {
        return Ok(());
    };
    let bytes = code.bytes.as_slice();
    if bytes.len() > LONGEST_CODE {
        return Ok(());
    }
    let insns = instructions(alloc, bytes)?;
    add_insns(sites, method, insns.as_slice())
}

/// The sites of a program with these methods. More than 2^32 methods have no numbers: for them memory is said to be wanting.
#[tactic(auto, unfolding(crate::specs::Sites::sites_of))]
pub fn sites_of(alloc: Global, methods: &[Method]) -> Result<List<Site>, Memory>
    ensures { IfOk result (λ sites. sites ≡ sites_of methods.now) }
{
    let mut sites = List::new(alloc);
    add(&mut sites, Site::Text)?;
    add(&mut sites, Site::Args)?;
    for (number, method) in methods.iter().enumerate() {
        let Ok(number) = u32::try_from(number) else {
            return Err(AllocError);
        };
        add_code(alloc, &mut sites, Id::of(number), &method.code)?;
    }
    Ok(sites)
}

/// Whether the site is the allocation or call at that pc.
fn is_made(site: &Site, at: MethodId, place: u32) -> bool
    ensures { result ≡ Sites.is_made at place site.now }
{
    match site {
        Site::Alloc { method, pc } => *method == at && *pc == place,
        Site::Call { method, pc } => *method == at && *pc == place,
        _ => false,
    }
}

/// Whether the site is the exception of that class at that pc.
fn is_raised(site: &Site, at: MethodId, place: u32, raised: ClassId) -> bool
    ensures { result ≡ Sites.is_raised at place raised site.now }
{
    match site {
        Site::Raise { method, pc, class } => *method == at && *pc == place && *class == raised,
        _ => false,
    }
}

/// Whether the site is the allocation or call at that pc, or the exception of that class there.
fn is_site(site: &Site, at: MethodId, place: u32, raised: &Option<ClassId>) -> bool
    ensures { result ≡ Sites.is_site at place raised.now site.now }
{
    match raised {
        None => is_made(site, at, place),
        Some(class) => is_raised(site, at, place, *class),
    }
}

fn comes_before(method: MethodId, pc: u32, at: MethodId, place: u64) -> bool
    ensures { result ≡ comes_before at place method pc }
{
    method.number() < at.number() || method == at && u64::from(pc) < place
}

/// Whether the site stands before those of that pc.
fn is_before(site: &Site, at: MethodId, place: u64) -> bool
    ensures { result ≡ is_before at place site.now }
{
    match site {
        Site::Text => true,
        Site::Args => true,
        Site::Alloc { method, pc } => comes_before(*method, *pc, at, place),
        Site::Call { method, pc } => comes_before(*method, *pc, at, place),
        Site::Raise { method, pc, .. } => comes_before(*method, *pc, at, place),
    }
}

/// How many sites stand before those of that pc.
fn count_before(sites: &[Site], at: MethodId, place: u64) -> usize
    requires { IsInOrder sites.now }
    ensures bound { result ≤ length sites.now }
    ensures point { IsPartitionPoint (λ site. is_before at place site ≡ true) (λ site. is_before at place site ≡ false) sites.now result }
{
    sites.partition_point(|site| is_before(site, at, place))
}

/// The number of the allocation or call at that pc of a method, or of the exception of that class there. None where there is none.
pub(crate) fn site_of(
    sites: &[Site],
    method: MethodId,
    pc: u32,
    raised: Option<ClassId>,
) -> Option<SiteId>
    requires few { length sites.now < 2 ^ 32 }
    requires order { IsInOrder sites.now }
    ensures { result ≡ Sites.site_of sites.now method pc raised }
{
    let first = count_before(sites, method, u64::from(pc));
    let end = count_before(sites, method, u64::from(pc) + 1);
    for number in first..end {
        if is_site(&sites[number], method, pc, &raised) {
            return Some(Id::of(number as u32));
        }
    }
    None
}
