// The shortest range lists of drawn functions.
ghost use Rattle.std.specs.Prelude.{◌≡◌, ◌≤◌, ◌<◌, ◌+◌, ℕ, IsTrue, length, IfOk};
ghost use Rattle.list_model.specs.declared.entry.ListKind.TheVariants.{Ranges};
ghost use Rattle.list_model.specs.Items.{HasTable};
ghost use Rattle.list_least.specs.Maps.{IsMapOf};
ghost use Rattle.list_least.specs.Plans.{bounds_of, IsItemOf, item_at};

use crate::draws::Draws;
use dw_base::{NoMemory, Span};
use list_least::{AddressMap, Plan, least_in};
use list_model::{Context, Item, ListKind, addr_table};
use std::alloc::Global;

/// The most items of a list.
pub const ITEM_LIMIT: u32 = 16_384;

// How many functions there are where lists are drawn from them.
const FUNCTIONS: u32 = 100_000;

// The most functions of a list that is drawn from them.
const LONGEST: u32 = 50;

/// What is told of some lists.
#[derive(Clone, Copy, Default)]
pub struct Sums {
    /// The sum of their bytes.
    pub sizes: u64,
    /// The sum of their potentials.
    pub potentials: u64,
    /// A sum of the codes and the operands of their entries that tells their order, too.
    pub picks: u64,
}

impl Sums {
    fn add_pick(&mut self, number: u64) {
        self.picks = self.picks.wrapping_mul(31).wrapping_add(number);
    }

    fn add(&mut self, plan: &Plan) {
        self.sizes = self.sizes.wrapping_add(plan.size);
        for potential in &plan.potentials {
            self.potentials = self.potentials.wrapping_add(*potential);
        }
        for pick in &plan.picks {
            self.add_pick(u64::from(pick.code));
            self.add_pick(pick.a);
            self.add_pick(pick.b);
        }
    }
}

// The addresses of a function: the first one, and the one past the last.
#[derive(Clone, Copy)]
struct Function {
    start: u64,
    end: u64,
}

// So many functions, one after the other, each at a multiple of 16. One in eight may be long.
fn drawn_functions(alloc: Global, draws: &mut Draws, count: u32) -> Result<Vec<Function>, NoMemory>
    ensures { IfOk result (λ functions. length functions.items ≡ count) }
{
    let mut functions = Vec::new(alloc);
    let mut start: u64 = 0x40_1000;
    for _ in 0..count {
        let most = if draws.below(8) == 0 { 400 } else { 24 };
        let size = 16 * (1 + draws.below(most));
        let end = start.wrapping_add(u64::from(size - draws.below(16)));
        functions.push(Function { start, end })?;
        start = start.wrapping_add(u64::from(size));
    }
    Ok(functions)
}

// A .debug_addr with one table, which has the starts of functions.
fn section_of(alloc: Global, functions: &[Function]) -> Result<Vec<u8>, NoMemory>
    requires { length functions.now ≤ 100000 }
{
    let mut section: Vec<u8> = Vec::new(alloc);
    let len = 8 * functions.len() as u32 + 4;
    section.extend_from_slice(&len.to_le_bytes())?;
    section.extend_from_slice(&[5, 0, 8, 0])?;
    for function in functions {
        section.extend_from_slice(&function.start.to_le_bytes())?;
    }
    Ok(section)
}

// The context of lists that look up addresses in the table of a section, or in none where it is empty.
fn context_of(addr: &[u8]) -> Context
    ensures { HasTable addr.now result.table }
{
    let table = match addr_table(addr, 8, 0) {
        Ok(table) => table,
        Err(_) => None,
    };
    Context { base: 0, table }
}

// The ranges of so many functions from one on.
fn items_of(
    alloc: Global,
    functions: &[Function],
    first: usize,
    count: usize,
) -> Result<Vec<Item>, NoMemory>
    requires inside { first + count ≤ length functions.now }
    ensures count { IfOk result (λ items. length items.items ≡ count) }
    ensures fits { IfOk result (λ items. (i : ℕ) → i < length items.items → IsItemOf Ranges (bounds_of (item_at items.items i))) }
{
    let mut items = Vec::new(alloc);
    for i in 0..count {
        let function = functions[first + i];
        items.push(Item {
            start: function.start,
            end: function.end,
            whole: false,
            expr: Span { at: 0, len: 0 },
        })?;
    }
    Ok(items)
}

// The shortest list of so many functions from one on.
fn plan_of(
    alloc: Global,
    functions: &[Function],
    first: usize,
    count: usize,
    context: &Context,
    addr: &[u8],
    indexes: &AddressMap,
) -> Result<Plan, NoMemory>
    requires inside { first + count ≤ length functions.now }
    requires few { count ≤ 16384 }
    requires table { HasTable addr.now context.now.table }
    requires mapped { IsMapOf addr.now context.now.table indexes.now }
{
    let items = items_of(alloc, functions, first, count)?;
    least_in(alloc, ListKind::Ranges, &items, context, addr, indexes)
}

// The sums of lists with so many items together, each of up to 50 functions from a drawn one on.
fn sums_of_lists(
    alloc: Global,
    draws: &mut Draws,
    functions: &[Function],
    count: u32,
    context: &Context,
    addr: &[u8],
    indexes: &AddressMap,
) -> Result<Sums, NoMemory>
    requires all { length functions.now ≡ 100000 }
    requires table { HasTable addr.now context.now.table }
    requires mapped { IsMapOf addr.now context.now.table indexes.now }
{
    let mut sums = Sums::default();
    let mut left = count;
    while left > 0 {
        let first = draws.below(FUNCTIONS - LONGEST) as usize;
        let len = (1 + draws.below(LONGEST)).min(left);
        let plan = plan_of(
            alloc,
            functions,
            first,
            len as usize,
            context,
            addr,
            indexes,
        )?;
        sums.add(&plan);
        left -= len;
    }
    Ok(sums)
}

/// Which lists are drawn.
#[derive(Clone, Copy)]
pub struct Shape {
    /// Whether there is but one list, which has all functions.
    pub is_one: bool,
    /// Whether there is a table of the functions' starts.
    pub has_table: bool,
}

/// The sums of the shortest range lists with so many items.
pub fn sums_of_ranges(alloc: Global, shape: Shape, count: u32) -> Result<Sums, NoMemory>
    requires { IsTrue shape.is_one → count ≤ 16384 }
{
    let mut draws = Draws::default();
    let function_count = if shape.is_one { count } else { FUNCTIONS };
    let functions = drawn_functions(alloc, &mut draws, function_count)?;
    let addr = if shape.has_table {
        section_of(alloc, &functions)?
    } else {
        Vec::new(alloc)
    };
    let context = context_of(&addr);
    let indexes = AddressMap::new(alloc, &addr, &context.table)?;
    if !shape.is_one {
        return sums_of_lists(
            alloc, &mut draws, &functions, count, &context, &addr, &indexes,
        );
    }
    let mut sums = Sums::default();
    sums.add(&plan_of(
        alloc,
        &functions,
        0,
        count as usize,
        &context,
        &addr,
        &indexes,
    )?);
    Ok(sums)
}
