//! The code of a function's or thread's tree.

ghost use Rattle.std.specs.Prelude.{◌≡◌, ◌+◌, ◌*◌, ◌<◌, ◌≤◌, OnOk, MatchResult, length, IfOk, [], ◌∷◌, Some};
ghost use Rattle.txs_tree_meaning.specs.Sound.{nodes, nodes_in};
ghost use Rattle.txs_tree_meaning.specs.Tree.{count};
ghost use Rattle.txs_tree_meaning.specs.View.{tree_of, trees_of};
ghost use Rattle.txs_gen.specs.Emission.{emission, above, emits, emits_all, emits_do, emits_let, emits_if, emits_bound, emits_loop, emits_dosync, emits_update, emits_recur, IsWithin, IsPlaced, IsPlacedAll, IsPlacedDo, IsPlacedLet, with_call, with_constant, with_instr, with_locals, with_pop, with_room, with_set, with_stores, with_update};
ghost use Rattle.txs_gen.specs.Gen.{opening};
ghost use Rattle.txs_value_data.specs.Limits.{most_items, most_locals, most_nodes};

use std::alloc::AllocError;
use txs_code_meaning::{Instr, OpenForm};
use txs_tree_meaning::{Node, NodeKind};
use txs_value_cell::UpdateForm;
use txs_value_data::{Callee, Span, Value, copy_value};

/// What a node's code finds: how many locals there are, how many values are on the stack, and what a
/// recur does there: from which local on it stores its values, and where it continues.
#[derive(Clone, Copy)]
pub struct Around {
    pub depth: u8,
    pub height: u32,
    pub base: u8,
    pub start: u32,
}

/// The code that was made so far: instructions with their spans, the constants that they push, how many
/// locals they use, and how many values they have on the stack at most.
#[derive(Drop)]
pub struct Emitter {
    pub instrs: Vec<Instr>,
    pub spans: Vec<Span>,
    pub constants: Vec<Value>,
    pub locals: u8,
    pub room: u32,
}

impl Emitter {
    /// One more instruction.
    pub fn put(&mut self, instr: Instr, span: Span) -> Result<(), AllocError>
        ensures { OnOk result (emission self.new ≡ with_instr instr span (emission self.old)) }
    {
        self.instrs.push(instr)?;
        self.spans.push(span)?;
        Ok(())
    }

    /// A push of a constant, with an entry of its own, and with room for so many values on the stack.
    fn constant(&mut self, value: &Value, room: u32, span: Span) -> Result<(), AllocError>
        requires { length self.old.constants.items < most_nodes }
        ensures { OnOk result (emission self.new ≡ with_instr (Instr.Const (length self.old.constants.items)) span (with_constant value.now (with_room room (emission self.old)))) }
    {
        self.rise(room);
        let number = self.constants.len() as u32;
        self.constants.push(copy_value(value)?)?;
        self.put(Instr::Const(number), span)
    }

    /// A push of a local, with room for so many values on the stack.
    fn local(&mut self, local: u8, room: u32, span: Span) -> Result<(), AllocError>
        ensures { OnOk result (emission self.new ≡ with_instr (Instr.Local local) span (with_room room (emission self.old))) }
    {
        self.rise(room);
        self.put(Instr::Local(local), span)
    }

    /// A store into a local.
    fn store(&mut self, local: u8, span: Span) -> Result<(), AllocError>
        requires { local < most_locals }
        ensures { OnOk result (emission self.new ≡ with_instr (Instr.Store local) span (with_locals (local + 1) (emission self.old))) }
    {
        self.locals = self.locals.max(local + 1);
        self.put(Instr::Store(local), span)
    }

    /// A pop, but for the last item.
    fn pop_unless(&mut self, last: bool, span: Span) -> Result<(), AllocError>
        ensures { OnOk result (emission self.new ≡ with_pop last span (emission self.old)) }
    {
        if last {
            Ok(())
        } else {
            self.put(Instr::Pop, span)
        }
    }

    /// The values on top of the stack become the locals from this one on, the last one first.
    fn store_all(&mut self, from: u8, count: u8, span: Span) -> Result<(), AllocError>
        requires { from + count ≤ 255 }
        ensures { OnOk result (emission self.new ≡ with_stores from count span (emission self.old)) }
    {
        let mut left = count;
        for _ in 0..count {
            left -= 1;
            self.put(Instr::Store(from + left), span)?;
        }
        Ok(())
    }

    /// A call of what an update names, on so many values.
    fn call(&mut self, callee: Callee, count: u16, span: Span) -> Result<(), AllocError>
        ensures { OnOk result (emission self.new ≡ with_call callee count span (emission self.old)) }
    {
        match callee {
            Callee::Core(op) => self.put(Instr::Core(op, count), span),
            Callee::Function(function) => self.put(Instr::Call(function), span),
        }
    }

    /// An update of a cell that is on the stack below so many arguments: its open, its call, and its close.
    fn update(
        &mut self,
        form: UpdateForm,
        callee: Callee,
        count: u16,
        span: Span,
    ) -> Result<(), AllocError>
        requires { count < most_items }
        ensures { OnOk result (emission self.new ≡ with_update form callee count span (emission self.old)) }
    {
        self.put(Instr::Open(open_form(form, callee), count), span)?;
        self.call(callee, count + 1, span)?;
        self.put(Instr::Close(form), span)
    }

    /// The place of the next instruction.
    fn place(&self) -> u32
        requires { length self.now.instrs.items ≤ 600000 }
        ensures { result ≡ length self.now.instrs.items }
    {
        self.instrs.len() as u32
    }

    /// Another instruction at a place.
    fn set(&mut self, place: u32, instr: Instr)
        requires { place < length self.old.instrs.items }
        ensures { emission self.new ≡ with_set place instr (emission self.old) }
    {
        self.instrs[place as usize] = instr;
    }

    /// So many values are on the stack.
    fn rise(&mut self, height: u32)
        ensures { emission self.new ≡ with_room height (emission self.old) }
    {
        self.room = self.room.max(height);
    }
}

/// What an update opens with.
fn open_form(form: UpdateForm, callee: Callee) -> OpenForm
    ensures { result ≡ opening form callee }
{
    match form {
        UpdateForm::Alter => OpenForm::Alter,
        UpdateForm::Commute => OpenForm::Commute(callee),
        UpdateForm::Swap => OpenForm::Swap(callee),
    }
}

/// The code of a node.
#[cycle(emit)]
pub fn emit(to: &mut Emitter, node: &Node, at: Around) -> Result<(), AllocError>
    requires part { IsPlaced at.depth at.base (tree_of node.now) }
    requires few_constants { length to.old.constants.items + nodes (tree_of node.now) ≤ most_nodes }
    requires few_instrs { length to.old.instrs.items + 3 * nodes (tree_of node.now) ≤ 600000 }
    requires low { at.height + nodes (tree_of node.now) ≤ most_nodes }
    ensures { OnOk result (emission to.new ≡ emits (tree_of node.now) at (emission to.old)) }
{
    match &node.kind {
        NodeKind::Const(value) => to.constant(value, at.height + 1, node.span),
        NodeKind::Local(local) => to.local(*local, at.height + 1, node.span),
        NodeKind::If(test, first, second) => { emit_if(to, test, first, second, node.span, at) }
        NodeKind::Do(items) => emit_do(to, items, node.span, at),
        NodeKind::Let(values, body) => emit_bound(to, values, body, node.span, at),
        NodeKind::Loop(values, body) => emit_loop(to, values, body, node.span, at),
        NodeKind::Recur(values) => emit_recur(to, values, node.span, at),
        NodeKind::Core(op, args) => {
            let instr = Instr::Core(*op, args.len() as u16);
            emit_applied(to, args, instr, 0, node.span, at)
        }
        NodeKind::Call(function, args) => {
            let instr = Instr::Call(*function);
            emit_applied(to, args, instr, at.height + 1, node.span, at)
        }
        NodeKind::Vector(items) => {
            let instr = Instr::Vector(items.len() as u16);
            emit_applied(to, items, instr, at.height + 1, node.span, at)
        }
        NodeKind::Println(args) => {
            let instr = Instr::Print(args.len() as u16);
            emit_applied(to, args, instr, at.height + 1, node.span, at)
        }
        NodeKind::Dosync(body) => emit_dosync(to, body, node.span, at),
        NodeKind::Look(form, cell) => emit_then(to, cell, Instr::Look(*form), node.span, at),
        NodeKind::Put(form, cell, value) => {
            emit_put(to, cell, value, Instr::Put(*form), node.span, at)
        }
        NodeKind::Update(form, cell, callee, args) => {
            emit_update(to, *form, cell, *callee, args, node.span, at)
        }
        NodeKind::Send(cell, callee, args) => {
            let instr = Instr::Send(*callee, args.len() as u16);
            emit_send(to, cell, args, instr, node.span, at)
        }
    }
}

/// The code of arguments, each of which leaves its value on the stack.
#[cycle(emit)]
fn emit_all(to: &mut Emitter, args: &[Node], at: Around) -> Result<(), AllocError>
    requires part { IsPlacedAll at.depth (trees_of args.now) }
    requires few_constants { length to.old.constants.items + nodes_in (trees_of args.now) ≤ most_nodes }
    requires few_instrs { length to.old.instrs.items + 3 * nodes_in (trees_of args.now) ≤ 600000 }
    requires low { at.height + nodes_in (trees_of args.now) ≤ most_nodes }
    ensures { OnOk result (emission to.new ≡ emits_all (trees_of args.now) at (emission to.old)) }
{
    let mut height = at.height;
    for arg in args {
        emit(to, arg, Around { height, ..at })?;
        height += 1;
    }
    Ok(())
}

/// The code of the items of a `do`, of which the last leaves its value.
#[cycle(emit)]
fn emit_do(to: &mut Emitter, items: &[Node], span: Span, at: Around) -> Result<(), AllocError>
    requires part { IsPlacedDo at.depth at.base (trees_of items.now) }
    requires few_constants { length to.old.constants.items + nodes_in (trees_of items.now) ≤ most_nodes }
    requires few_instrs { length to.old.instrs.items + 3 * nodes_in (trees_of items.now) ≤ 600000 }
    requires low { at.height + nodes_in (trees_of items.now) ≤ most_nodes }
    ensures { OnOk result (emission to.new ≡ emits_do (trees_of items.now) span at (emission to.old)) }
{
    let mut left = items.len();
    for item in items {
        emit(to, item, at)?;
        left -= 1;
        to.pop_unless(left == 0, span)?;
    }
    Ok(())
}

/// The code of the values of a `let`, each of which becomes a local, and how many locals there are then.
#[cycle(emit)]
fn emit_let(to: &mut Emitter, values: &[Node], span: Span, at: Around) -> Result<u8, AllocError>
    requires part { IsPlacedLet at.depth (trees_of values.now) }
    requires few_constants { length to.old.constants.items + nodes_in (trees_of values.now) ≤ most_nodes }
    requires few_instrs { length to.old.instrs.items + 3 * nodes_in (trees_of values.now) ≤ 600000 }
    requires low { at.height + nodes_in (trees_of values.now) ≤ most_nodes }
    ensures locals { IfOk result (λ depth. depth ≡ at.depth + count (trees_of values.now)) }
    ensures code { OnOk result (emission to.new ≡ emits_let (trees_of values.now) span at (emission to.old)) }
{
    let mut depth = at.depth;
    for value in values {
        emit(to, value, Around { depth, ..at })?;
        to.store(depth, span)?;
        depth += 1;
    }
    Ok(depth)
}

/// The code of a choice: the test, and the branches, of which the machine jumps over one.
#[cycle(emit)]
fn emit_if(
    to: &mut Emitter,
    test: &Node,
    first: &Node,
    second: &Node,
    span: Span,
    at: Around,
) -> Result<(), AllocError>
    requires test { IsPlaced at.depth at.base (tree_of test.now) }
    requires first { IsPlaced at.depth at.base (tree_of first.now) }
    requires second { IsPlaced at.depth at.base (tree_of second.now) }
    requires few_constants { length to.old.constants.items + (nodes (tree_of test.now) + (nodes (tree_of first.now) + nodes (tree_of second.now))) < most_nodes }
    requires few_instrs { length to.old.instrs.items + 3 * (nodes (tree_of test.now) + (nodes (tree_of first.now) + nodes (tree_of second.now))) < 599998 }
    requires low { at.height + (nodes (tree_of test.now) + (nodes (tree_of first.now) + nodes (tree_of second.now))) < most_nodes }
    ensures { OnOk result (emission to.new ≡ emits_if (tree_of test.now) (tree_of first.now) (tree_of second.now) span at (emission to.old)) }
{
    emit(to, test, at)?;
    let to_second = to.place();
    to.put(Instr::JumpFalse(0), span)?;
    emit(to, first, at)?;
    let to_end = to.place();
    to.put(Instr::Jump(0), span)?;
    to.set(to_second, Instr::JumpFalse(to.place()));
    emit(to, second, at)?;
    to.set(to_end, Instr::Jump(to.place()));
    Ok(())
}

/// The code of values that become locals, and of a body that has them.
#[cycle(emit)]
fn emit_bound(
    to: &mut Emitter,
    values: &[Node],
    body: &Node,
    span: Span,
    at: Around,
) -> Result<(), AllocError>
    requires part { IsPlacedLet at.depth (trees_of values.now) }
    requires body { IsPlaced (at.depth + count (trees_of values.now)) at.base (tree_of body.now) }
    requires few_constants { length to.old.constants.items + (nodes_in (trees_of values.now) + nodes (tree_of body.now)) < most_nodes }
    requires few_instrs { length to.old.instrs.items + 3 * (nodes_in (trees_of values.now) + nodes (tree_of body.now)) < 599998 }
    requires low { at.height + (nodes_in (trees_of values.now) + nodes (tree_of body.now)) < most_nodes }
    ensures { OnOk result (emission to.new ≡ emits_bound (trees_of values.now) (tree_of body.now) span at (emission to.old)) }
{
    let depth = emit_let(to, values, span, at)?;
    emit(to, body, Around { depth, ..at })
}

/// The code of a loop: its values become locals, and what follows them is where a recur continues.
#[cycle(emit)]
fn emit_loop(
    to: &mut Emitter,
    values: &[Node],
    body: &Node,
    span: Span,
    at: Around,
) -> Result<(), AllocError>
    requires part { IsPlacedLet at.depth (trees_of values.now) }
    requires body { IsPlaced (at.depth + count (trees_of values.now)) at.depth (tree_of body.now) }
    requires few_constants { length to.old.constants.items + (nodes_in (trees_of values.now) + nodes (tree_of body.now)) < most_nodes }
    requires few_instrs { length to.old.instrs.items + 3 * (nodes_in (trees_of values.now) + nodes (tree_of body.now)) < 599998 }
    requires low { at.height + (nodes_in (trees_of values.now) + nodes (tree_of body.now)) < most_nodes }
    ensures { OnOk result (emission to.new ≡ emits_loop (trees_of values.now) (tree_of body.now) span at (emission to.old)) }
{
    let depth = emit_let(to, values, span, at)?;
    let inner = Around {
        depth,
        height: at.height,
        base: at.depth,
        start: to.place(),
    };
    emit(to, body, inner)
}

/// The code of a recur: its values become the loop's locals, and the loop makes its next round.
#[cycle(emit)]
fn emit_recur(to: &mut Emitter, values: &[Node], span: Span, at: Around) -> Result<(), AllocError>
    requires part { IsPlacedAll at.depth (trees_of values.now) }
    requires within { IsWithin at.base (Some (count (trees_of values.now))) at.depth }
    requires few_constants { length to.old.constants.items + nodes_in (trees_of values.now) < most_nodes }
    requires few_instrs { length to.old.instrs.items + 3 * nodes_in (trees_of values.now) < 599998 }
    requires low { at.height + nodes_in (trees_of values.now) < most_nodes }
    ensures { OnOk result (emission to.new ≡ emits_recur (trees_of values.now) span at (emission to.old)) }
{
    emit_all(to, values, at)?;
    to.rise(at.height + 1);
    to.store_all(at.base, values.len() as u8, span)?;
    to.put(Instr::Jump(at.start), span)
}

/// The code of a transaction: its body between where it begins and where it ends.
#[cycle(emit)]
fn emit_dosync(to: &mut Emitter, body: &Node, span: Span, at: Around) -> Result<(), AllocError>
    requires part { IsPlaced at.depth at.base (tree_of body.now) }
    requires few_constants { length to.old.constants.items + nodes (tree_of body.now) < most_nodes }
    requires few_instrs { length to.old.instrs.items + 3 * nodes (tree_of body.now) < 599998 }
    requires low { at.height + nodes (tree_of body.now) < most_nodes }
    ensures { OnOk result (emission to.new ≡ emits_dosync (tree_of body.now) span at (emission to.old)) }
{
    to.put(Instr::TxBegin, span)?;
    emit_then(to, body, Instr::TxEnd, span, at)
}

/// The code of arguments and an instruction that takes their values, with room for so many on the stack.
#[cycle(emit)]
fn emit_applied(
    to: &mut Emitter,
    args: &[Node],
    instr: Instr,
    room: u32,
    span: Span,
    at: Around,
) -> Result<(), AllocError>
    requires part { IsPlacedAll at.depth (trees_of args.now) }
    requires few_constants { length to.old.constants.items + nodes_in (trees_of args.now) ≤ most_nodes }
    requires few_instrs { length to.old.instrs.items + 3 * nodes_in (trees_of args.now) ≤ 600000 }
    requires low { at.height + nodes_in (trees_of args.now) ≤ most_nodes }
    ensures { OnOk result (emission to.new ≡ with_instr instr span (with_room room (emits_all (trees_of args.now) at (emission to.old)))) }
{
    emit_all(to, args, at)?;
    to.rise(room);
    to.put(instr, span)
}

/// The code of a node and an instruction that takes its value.
#[cycle(emit)]
fn emit_then(
    to: &mut Emitter,
    node: &Node,
    instr: Instr,
    span: Span,
    at: Around,
) -> Result<(), AllocError>
    requires part { IsPlaced at.depth at.base (tree_of node.now) }
    requires few_constants { length to.old.constants.items + nodes (tree_of node.now) ≤ most_nodes }
    requires few_instrs { length to.old.instrs.items + 3 * nodes (tree_of node.now) ≤ 600000 }
    requires low { at.height + nodes (tree_of node.now) ≤ most_nodes }
    ensures { OnOk result (emission to.new ≡ with_instr instr span (emits (tree_of node.now) at (emission to.old))) }
{
    emit(to, node, at)?;
    to.put(instr, span)
}

/// The code of a cell and of a value above it, and an instruction that takes both.
#[cycle(emit)]
fn emit_put(
    to: &mut Emitter,
    cell: &Node,
    value: &Node,
    instr: Instr,
    span: Span,
    at: Around,
) -> Result<(), AllocError>
    requires cell { IsPlaced at.depth at.base (tree_of cell.now) }
    requires part { IsPlaced at.depth at.base (tree_of value.now) }
    requires few_constants { length to.old.constants.items + (nodes (tree_of cell.now) + nodes (tree_of value.now)) < most_nodes }
    requires few_instrs { length to.old.instrs.items + 3 * (nodes (tree_of cell.now) + nodes (tree_of value.now)) < 599998 }
    requires low { at.height + (nodes (tree_of cell.now) + nodes (tree_of value.now)) < most_nodes }
    ensures { OnOk result (emission to.new ≡ with_instr instr span (emits (tree_of value.now) (above at) (emits (tree_of cell.now) at (emission to.old)))) }
{
    emit(to, cell, at)?;
    let height = at.height + 1;
    emit_then(to, value, instr, span, Around { height, ..at })
}

/// The code of an update: the cell and the arguments, between which its value is put, then the call, and the
/// close with what the callee gives.
#[cycle(emit)]
fn emit_update(
    to: &mut Emitter,
    form: UpdateForm,
    cell: &Node,
    callee: Callee,
    args: &[Node],
    span: Span,
    at: Around,
) -> Result<(), AllocError>
    requires cell { IsPlaced at.depth at.base (tree_of cell.now) }
    requires few_args { count (trees_of args.now) < most_items }
    requires part { IsPlacedAll at.depth (trees_of args.now) }
    requires few_constants { length to.old.constants.items + (nodes (tree_of cell.now) + nodes_in (trees_of args.now)) < most_nodes }
    requires few_instrs { length to.old.instrs.items + 3 * (nodes (tree_of cell.now) + nodes_in (trees_of args.now)) < 599998 }
    requires low { at.height + (nodes (tree_of cell.now) + nodes_in (trees_of args.now)) < most_nodes }
    ensures { OnOk result (emission to.new ≡ emits_update form (tree_of cell.now) callee (trees_of args.now) span at (emission to.old)) }
{
    let count = args.len() as u16;
    emit(to, cell, at)?;
    let height = at.height + 1;
    emit_all(to, args, Around { height, ..at })?;
    to.rise(at.height + u32::from(count) + 2);
    to.update(form, callee, count, span)
}

/// The code of an agent and of the arguments above it, and an instruction that takes them all.
#[cycle(emit)]
fn emit_send(
    to: &mut Emitter,
    cell: &Node,
    args: &[Node],
    instr: Instr,
    span: Span,
    at: Around,
) -> Result<(), AllocError>
    requires cell { IsPlaced at.depth at.base (tree_of cell.now) }
    requires part { IsPlacedAll at.depth (trees_of args.now) }
    requires few_constants { length to.old.constants.items + (nodes (tree_of cell.now) + nodes_in (trees_of args.now)) < most_nodes }
    requires few_instrs { length to.old.instrs.items + 3 * (nodes (tree_of cell.now) + nodes_in (trees_of args.now)) < 599998 }
    requires low { at.height + (nodes (tree_of cell.now) + nodes_in (trees_of args.now)) < most_nodes }
    ensures { OnOk result (emission to.new ≡ with_instr instr span (with_room 0 (emits_all (trees_of args.now) (above at) (emits (tree_of cell.now) at (emission to.old))))) }
{
    emit(to, cell, at)?;
    let height = at.height + 1;
    emit_applied(to, args, instr, 0, span, Around { height, ..at })
}
