ghost use Rattle.std.specs.Prelude.{◌≡◌, ◌++◌, ◌∷◌, [], ◌<◌, length, IfOk, IsTrue, OnOk, OnErr};
ghost use Rattle.rf_problem.specs.Valid.{is_asserted};
ghost use Rattle.rf_graph.specs.Document.{class_name, document, edge_line, node_line, object_name, predicate_name, reference_name, symbol_name};
ghost use Rattle.rf_graph.specs.Graph.{Fits, FitsEdge, FitsNode};

use crate::{Edge, Graph, Node};
use rf_problem::{ObjectName, Problem, Symbol};
use rf_text::{Text, push_name, push_number};
use std::alloc::{AllocError, Global};

/// Appends the name of a class as documents write it.
pub fn push_class(
    alloc: Global,
    out: &mut Text,
    problem: &Problem,
    class: u32,
) -> Result<(), AllocError>
    requires { class < length problem.now.classes }
    ensures ok { OnOk result (out.new ≡ out.old ++ class_name problem.now class) }
    ensures err { OnErr result (out.new ≡ out.old) }
{
    push_name(alloc, out, &problem.classes[class as usize].name)
}

/// Appends the name of a reference as documents write it, after that of the class that declares it.
pub fn push_reference(
    alloc: Global,
    out: &mut Text,
    problem: &Problem,
    reference: u32,
) -> Result<(), AllocError>
    requires { reference < length problem.now.references }
    ensures ok { OnOk result (out.new ≡ out.old ++ reference_name problem.now reference) }
    ensures err { OnErr result (out.new ≡ out.old) }
{
    let declared = &problem.references[reference as usize];
    let mut name = Text::new(alloc);
    push_class(alloc, &mut name, problem, declared.source)?;
    name.push_str("::")?;
    push_name(alloc, &mut name, &declared.name)?;
    out.push_str(name.as_str())
}

// Appends the name of a predicate.
fn push_predicate(
    alloc: Global,
    out: &mut Text,
    problem: &Problem,
    predicate: u32,
) -> Result<(), AllocError>
    requires { predicate < length problem.now.predicates }
    ensures ok { OnOk result (out.new ≡ out.old ++ predicate_name problem.now predicate) }
    ensures err { OnErr result (out.new ≡ out.old) }
{
    push_name(alloc, out, &problem.predicates[predicate as usize].name)
}

/// Appends an object's name as documents write it.
pub fn push_object(
    alloc: Global,
    out: &mut Text,
    problem: &Problem,
    object: u64,
) -> Result<(), AllocError>
    requires { object < length problem.now.objects }
    ensures ok { OnOk result (out.new ≡ out.old ++ object_name problem.now object) }
    ensures err { OnErr result (out.new ≡ out.old) }
{
    match &problem.objects[object as usize].name {
        ObjectName::Named(name) => push_name(alloc, out, name),
        ObjectName::NewOf(class) => {
            let mut name = Text::new(alloc);
            push_class(alloc, &mut name, problem, *class)?;
            name.push_str("::new")?;
            out.push_str(name.as_str())
        }
    }
}

/// Appends the name of a symbol as documents write it.
pub fn push_symbol(
    alloc: Global,
    out: &mut Text,
    problem: &Problem,
    symbol: Symbol,
) -> Result<(), AllocError>
    requires { IsTrue (is_asserted (length problem.now.classes) (length problem.now.references) (length problem.now.predicates) symbol) }
    ensures ok { OnOk result (out.new ≡ out.old ++ symbol_name problem.now symbol) }
    ensures err { OnErr result (out.new ≡ out.old) }
{
    match symbol {
        Symbol::Class(class) => push_class(alloc, out, problem, class),
        Symbol::Reference(reference) => push_reference(alloc, out, problem, reference),
        Symbol::Predicate(predicate) => push_predicate(alloc, out, problem, predicate),
        Symbol::Exists => out.push_str("exists"),
        Symbol::Equals => out.push_str("equals"),
    }
}

// Appends the line of a node.
fn push_node(alloc: Global, out: &mut Text, problem: &Problem, node: Node) -> Result<(), AllocError>
    requires { FitsNode problem.now node }
    ensures { OnOk result (out.new ≡ out.old ++ (node_line problem.now node ++ 10 ∷ [])) }
{
    out.push_str("node ")?;
    push_class(alloc, out, problem, node.class)?;
    out.push_str(" ")?;
    push_object(alloc, out, problem, node.origin)?;
    out.push_str("\n")
}

// Appends the line of an edge.
fn push_edge(alloc: Global, out: &mut Text, problem: &Problem, edge: Edge) -> Result<(), AllocError>
    requires { edge.reference < length problem.now.references }
    ensures { OnOk result (out.new ≡ out.old ++ (edge_line problem.now edge ++ 10 ∷ [])) }
{
    out.push_str("edge ")?;
    push_reference(alloc, out, problem, edge.reference)?;
    out.push_str(" ")?;
    push_number(alloc, out, edge.from)?;
    out.push_str(" ")?;
    push_number(alloc, out, edge.to)?;
    out.push_str("\n")
}

/// The document of a graph.
pub fn print_graph(alloc: Global, problem: &Problem, graph: &Graph) -> Result<Text, AllocError>
    requires { Fits problem.now graph.now }
    ensures { IfOk result (λ text. text ≡ document problem.now graph.now) }
{
    let mut text = Text::from_str(alloc, "graph 1\n")?;
    for node in graph.nodes.iter() {
        push_node(alloc, &mut text, problem, *node)?;
    }
    for edge in graph.edges.iter() {
        push_edge(alloc, &mut text, problem, *edge)?;
    }
    text.push_str("end\n")?;
    Ok(text)
}
