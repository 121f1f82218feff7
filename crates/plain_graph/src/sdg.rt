//! Builds the dependence graph of a program of plain code, by one walk over its line of instructions.
ghost use Rattle.std.specs.Prelude.{◌≡◌, ℕ, ◌+◌, ◌-◌, ◌*◌, ◌<◌, ◌^◌, [], ◌∷◌, ◌++◌, length, Contains, IfOk, OnOk, true, slice_index_or};
ghost use Rattle.dependence.specs.Flow.{reads_of, writes_of};
ghost use Rattle.dependence.specs.declared.flow.Place.{Place as APlace};
ghost use Rattle.jo_prog.specs.declared.program.Code.{Code};
ghost use Rattle.jo_prog.specs.Program.{code_at};
ghost use Rattle.jo_prog.specs.Labels.{label_of};
ghost use Rattle.dep_nodes.specs.Graphs.{edge};
ghost use Rattle.dependence.specs.Graph.{is_source, is_sink};
ghost use Rattle.jo_prog.specs.PlainCode.{IsPlainProgram};
ghost use Rattle.dependence.specs.GraphData.{IsDependenceGraph};
ghost use Rattle.plain_graph.specs.Building.{definition_of, HasPlace, AreWritten, name_of, use_edges, uses_edges, out_edges, control_edges, heap_edges, AddsInstruction, AddsSource, AddsSink, height_after, is_call, is_return, IsStart, HasShortCode};

use dep_nodes::{Edge, EdgeKind, Graph, NodeKind, NodeName, SiteList};
use dependence::flow::Place;
use jo_ids::{List, Memory, MethodId, NodeId, SiteId};
use jo_prog::labels::{Label, Labels, label_of};
use jo_prog::operations::Operation;
use jo_prog::program::{Program, callee_at, code_at, operation_at};
use jo_prog::runner::takes_arguments;
use std::alloc::Global;

/// The node that wrote each place last, for each local and for each height of the stack.
#[derive(Drop)]
struct Definitions {
    locals: Vec<Option<NodeId>>,
    stack: Vec<Option<NodeId>>,
}

/// A call's result that a source gave.
#[derive(Clone, Copy)]
struct SourceResult {
    source: MethodId,
    node: NodeId,
}

fn definition_in(table: &[Option<NodeId>], index: usize) -> Option<NodeId>
    ensures { result ≡ slice_index_or table.now index None }
{
    match table.get(index) {
        Some(definition) => *definition,
        None => None,
    }
}

impl Definitions {
    /// The node that wrote a place last.
    fn of(&self, place: Place) -> Option<NodeId>
        ensures { result ≡ definition_of self.now place }
    {
        match place {
            Place::Local(k) => definition_in(self.locals.as_slice(), k as usize),
            Place::Stack(h) => definition_in(self.stack.as_slice(), h as usize),
            Place::Pending => None,
        }
    }

    /// A node writes a place.
    fn define(&mut self, place: Place, node: NodeId)
        requires { HasPlace self.old place }
        ensures { AreWritten self.old self.new (place ∷ []) node }
    {
        match place {
            Place::Local(k) => {
                self.locals[k as usize] = Some(node);
            }
            Place::Stack(h) => {
                self.stack[h as usize] = Some(node);
            }
            Place::Pending => {}
        }
    }

    /// A node writes what its operation writes.
    fn define_written(&mut self, operation: Operation, height: u16, node: NodeId)
        requires { (v : APlace) → Contains (writes_of operation height) v → HasPlace self.old v }
        ensures { AreWritten self.old self.new (writes_of operation height) node }
    {
        match operation {
            Operation::Constant(_) => self.define(Place::Stack(height), node),
            Operation::Load(_) => self.define(Place::Stack(height), node),
            Operation::Store(k) => self.define(Place::Local(k), node),
            Operation::Add => self.define(Place::Stack(height.saturating_sub(2)), node),
            Operation::Subtract => self.define(Place::Stack(height.saturating_sub(2)), node),
            Operation::InvokeStatic(_) => {}
            Operation::Return => {}
            Operation::Other => {}
        }
    }
}

/// Adds a node in the root context.
fn add_node(
    nodes: &mut List<NodeName>,
    method: MethodId,
    kind: NodeKind,
    resolved: Option<MethodId>,
) -> Result<NodeId, Memory>
    requires { length nodes.old < 2 ^ 32 }
    ensures number { IfOk result (λ n. n ≡ length nodes.old) }
    ensures added { OnOk result (nodes.new ≡ nodes.old ++ name_of method kind resolved ∷ []) }
{
    let number = NodeId::of(nodes.as_slice().len() as u32);
    let sites = SiteList {
        len: 0,
        first: SiteId::of(0),
        second: SiteId::of(0),
    };
    let name = NodeName {
        method,
        sites,
        kind,
        resolved,
    };
    match nodes.push(name) {
        Ok(()) => Ok(number),
        Err((_, memory)) => Err(memory),
    }
}

/// Adds an edge.
fn add_edge(edges: &mut List<Edge>, from: NodeId, kind: EdgeKind, to: NodeId) -> Result<(), Memory>
    ensures { OnOk result (edges.new ≡ edges.old ++ edge from kind to ∷ []) }
{
    match edges.push(Edge { from, kind, to }) {
        Ok(()) => Ok(()),
        Err((_, memory)) => Err(memory),
    }
}

/// Adds the edge from Entry.
fn add_control(edges: &mut List<Edge>, to: NodeId) -> Result<(), Memory>
    ensures { OnOk result (edges.new ≡ edges.old ++ control_edges to) }
{
    add_edge(edges, NodeId::of(0), EdgeKind::Control, to)
}

/// Adds the edge from the definition of a place to a use.
fn add_use(edges: &mut List<Edge>, definition: Option<NodeId>, node: NodeId) -> Result<(), Memory>
    ensures { OnOk result (edges.new ≡ edges.old ++ use_edges definition node) }
{
    match definition {
        Some(definition) => add_edge(edges, definition, EdgeKind::Data, node),
        None => Ok(()),
    }
}

/// Adds the edges from the definitions that an operation uses.
fn add_uses(
    edges: &mut List<Edge>,
    definitions: &Definitions,
    operation: Operation,
    height: u16,
    node: NodeId,
) -> Result<(), Memory>
    ensures { OnOk result (edges.new
        ≡ edges.old ++ uses_edges definitions.now (reads_of operation height) node) }
{
    match operation {
        Operation::Load(k) => add_use(edges, definitions.of(Place::Local(k)), node),
        Operation::Store(_) => {
            add_use(
                edges,
                definitions.of(Place::Stack(height.saturating_sub(1))),
                node,
            )
        }
        Operation::Add | Operation::Subtract => {
            add_use(
                edges,
                definitions.of(Place::Stack(height.saturating_sub(1))),
                node,
            )?;
            add_use(
                edges,
                definitions.of(Place::Stack(height.saturating_sub(2))),
                node,
            )
        }
        _ => Ok(()),
    }
}

/// Adds a return's edge to the node Kind.
fn add_out(edges: &mut List<Edge>, operation: Operation, node: NodeId) -> Result<(), Memory>
    ensures { OnOk result (edges.new ≡ edges.old ++ out_edges operation node) }
{
    match operation {
        Operation::Return => add_edge(edges, node, EdgeKind::Out, NodeId::of(2)),
        _ => Ok(()),
    }
}

/// Adds the edges between a new result of a source and those before it.
fn add_heap(
    edges: &mut List<Edge>,
    results: &[SourceResult],
    source: MethodId,
    node: NodeId,
) -> Result<(), Memory>
    ensures { OnOk result (edges.new ≡ edges.old ++ heap_edges results.now source node) }
{
    for before in results {
        if before.source == source {
            add_edge(edges, before.node, EdgeKind::Heap, node)?;
            add_edge(edges, node, EdgeKind::Heap, before.node)?;
        }
    }
    Ok(())
}

/// What the walk has made so far. The first four nodes are Entry, Exit, Kind and Thrown, and behind them stands the parameter of an
/// entry that has one.
#[derive(Drop)]
struct Builder {
    nodes: List<NodeName>,
    edges: List<Edge>,
    definitions: Definitions,
    results: List<SourceResult>,
}

impl Builder {
    /// A builder with the nodes that no instruction has.
    fn new(
        alloc: Global,
        has_arguments: bool,
        method: MethodId,
        max_locals: usize,
        max_stack: usize,
    ) -> Result<Builder, Memory>
        ensures { IfOk result (λ b. IsStart b has_arguments method max_locals max_stack) }
    {
        let mut nodes = List::new(alloc);
        add_node(&mut nodes, method, NodeKind::Entry, None)?;
        add_node(&mut nodes, method, NodeKind::Exit, None)?;
        add_node(&mut nodes, method, NodeKind::Kind, None)?;
        add_node(&mut nodes, method, NodeKind::Thrown, None)?;
        if has_arguments {
            add_node(&mut nodes, method, NodeKind::Param(0), None)?;
        }
        let definitions = Definitions {
            locals: vec![in alloc; None; max_locals]?,
            stack: vec![in alloc; None; max_stack]?,
        };
        Ok(Builder {
            nodes,
            edges: List::new(alloc),
            definitions,
            results: List::new(alloc),
        })
    }

    fn into_graph(self) -> Graph
        ensures { result ≡ record { nodes = self.nodes; edges = self.edges } }
    {
        let Builder {
            nodes,
            edges,
            definitions,
            results,
        } = self;
        drop(definitions);
        drop(results);
        Graph { nodes, edges }
    }

    /// Adds an instruction that is no call.
    fn add_instruction(
        &mut self,
        method: MethodId,
        pc: u32,
        operation: Operation,
        height: u16,
    ) -> Result<(), Memory>
        requires few { length self.old.nodes < 2 ^ 32 }
        requires places { (v : APlace) → Contains (writes_of operation height) v → HasPlace self.old.definitions v }
        ensures { OnOk result (AddsInstruction self.old self.new method pc operation height) }
    {
        let node = add_node(&mut self.nodes, method, NodeKind::Instr(pc), None)?;
        add_control(&mut self.edges, node)?;
        add_uses(&mut self.edges, &self.definitions, operation, height, node)?;
        add_out(&mut self.edges, operation, node)?;
        self.definitions.define_written(operation, height, node);
        Ok(())
    }

    /// Adds the call of a source.
    fn add_source(
        &mut self,
        method: MethodId,
        pc: u32,
        source: MethodId,
        height: u16,
    ) -> Result<(), Memory>
        requires few { length self.old.nodes + 1 < 2 ^ 32 }
        requires place { HasPlace self.old.definitions (Place.Stack height) }
        ensures { OnOk result (AddsSource self.old self.new method pc source height) }
    {
        let call = add_node(&mut self.nodes, method, NodeKind::Call(pc), Some(source))?;
        let node = add_node(&mut self.nodes, method, NodeKind::RetVal(pc), Some(source))?;
        add_control(&mut self.edges, call)?;
        add_control(&mut self.edges, node)?;
        add_heap(&mut self.edges, self.results.as_slice(), source, node)?;
        add_edge(&mut self.edges, node, EdgeKind::Heap, node)?;
        self.definitions.define(Place::Stack(height), node);
        push_result(&mut self.results, SourceResult { source, node })
    }

    /// Adds the call of a sink.
    fn add_sink(
        &mut self,
        method: MethodId,
        pc: u32,
        sink: MethodId,
        height: u16,
    ) -> Result<(), Memory>
        requires few { length self.old.nodes + 2 < 2 ^ 32 }
        ensures { OnOk result (AddsSink self.old self.new method pc sink height) }
    {
        let call = add_node(&mut self.nodes, method, NodeKind::Call(pc), Some(sink))?;
        let shown = add_node(&mut self.nodes, method, NodeKind::Arg(pc, 0), Some(sink))?;
        let node = add_node(&mut self.nodes, method, NodeKind::RetVal(pc), Some(sink))?;
        let definition = self.definitions.of(Place::Stack(height.saturating_sub(1)));
        add_control(&mut self.edges, call)?;
        add_use(&mut self.edges, definition, shown)?;
        add_edge(&mut self.edges, shown, EdgeKind::Data, call)?;
        add_control(&mut self.edges, node)
    }
}

fn push_result(results: &mut List<SourceResult>, of_source: SourceResult) -> Result<(), Memory>
    ensures { OnOk result (results.new ≡ results.old ++ of_source ∷ []) }
{
    match results.push(of_source) {
        Ok(()) => Ok(()),
        Err((_, memory)) => Err(memory),
    }
}

/// The height of the stack behind an operation that is no call.
fn height_after(operation: Operation, height: u16) -> u16
    requires { height_after operation height < 2 ^ 16 }
    ensures { result ≡ height_after operation height }
{
    match operation {
        Operation::Constant(_) | Operation::Load(_) => height + 1,
        Operation::Store(_) | Operation::Add | Operation::Subtract => height.saturating_sub(1),
        Operation::InvokeStatic(_) | Operation::Return | Operation::Other => height,
    }
}

fn is_call(operation: Operation) -> bool
    ensures { result ≡ is_call operation }
{
    match operation {
        Operation::InvokeStatic(_) => true,
        _ => false,
    }
}

fn is_return(operation: Operation) -> bool
    ensures { result ≡ is_return operation }
{
    match operation {
        Operation::Return => true,
        _ => false,
    }
}

impl Builder {
    /// Adds a call, and gives the height of the stack behind it. Plain code calls sources and sinks alone.
    fn add_call(
        &mut self,
        labels: &Labels,
        method: MethodId,
        pc: u32,
        callee: Option<MethodId>,
        height: u16,
    ) -> Result<u16, Memory>
        requires few { length self.old.nodes + 2 < 2 ^ 32 }
        requires place { (s : ℕ) → callee ≡ Some s → is_source (label_of labels.now s) ≡ true
            → HasPlace self.old.definitions (Place.Stack height) × (height + 1 < 2 ^ 16) }
        ensures source { IfOk result (λ after. (s : ℕ) → callee ≡ Some s → is_source (label_of labels.now s) ≡ true
            → AddsSource self.old self.new method pc s height × (after ≡ height + 1)) }
        ensures sink { IfOk result (λ after. (s : ℕ) → callee ≡ Some s → is_sink (label_of labels.now s) ≡ true
            → AddsSink self.old self.new method pc s height × (after ≡ height - 1)) }
    {
        let Some(named) = callee else {
            return Ok(height);
        };
        match label_of(labels, named) {
            Some(Label::Source(_)) => {
                self.add_source(method, pc, named, height)?;
                Ok(height + 1)
            }
            Some(Label::Sink(_)) => {
                self.add_sink(method, pc, named, height)?;
                Ok(height.saturating_sub(1))
            }
            _ => Ok(height),
        }
    }
}

/// The dependence graph of a program of plain code: one walk along the entry's line of instructions, which keeps for each
/// place the node that wrote it last.
pub fn build(alloc: Global, program: &Program, labels: &Labels) -> Result<Graph, Memory>
    requires plain { IsPlainProgram program.now labels.now }
    requires short { HasShortCode program.now labels.now.entry }
    ensures { IfOk result (λ g. IsDependenceGraph program.now labels.now g) }
{
    let method = labels.entry;
    let (max_locals, max_stack) = sizes_of(program, method);
    let has_arguments = takes_arguments(program, method);
    let mut builder = Builder::new(alloc, has_arguments, method, max_locals, max_stack)?;
    let mut pc = 0;
    let mut height = 0;
    loop {
        let Some((operation, next)) = operation_at(program, method, pc) else {
            return Ok(builder.into_graph());
        };
        if is_call(operation) {
            let callee = callee_at(program, method, pc);
            height = builder.add_call(labels, method, pc, callee, height)?;
        } else {
            builder.add_instruction(method, pc, operation, height)?;
            if is_return(operation) {
                return Ok(builder.into_graph());
            }
            height = height_after(operation, height);
        }
        pc = next;
    }
}

/// The numbers of locals and of stack places of a method's code.
fn sizes_of(program: &Program, method: MethodId) -> (usize, usize)
    ensures { (code : Code) → code_at program.now method ≡ Some code
        → (result.0 ≡ code.max_locals) × (result.1 ≡ code.max_stack) }
{
    match code_at(program, method) {
        Some(code) => (code.max_locals as usize, code.max_stack as usize),
        None => (0, 0),
    }
}
