//! The stock guides and orders, which lines of a session choose by number.
ghost use Rattle.std.specs.Prelude.{◌≡◌, IfOk, vec_len};
ghost use Rattle.palm_cli.specs.Stock.{AreStockGuides, AreStockOrders};

use palm_agenda::{LastOrder, Order, RotateOrder};
use palm_base::{Cid, NoMemory, Pair, Var};
use palm_book::MOST_VARIABLES;
use palm_guide::{FirstGuide, Guide, MostConflicts, SmallestGuide, ViewRow};
use std::alloc::Global;

/// A stock guide. It answers and hears as the one inside.
#[derive(Drop)]
pub enum StockGuide {
    First(FirstGuide),
    Smallest(SmallestGuide),
    Most(MostConflicts),
}

impl Guide for StockGuide {
    ghost use Rattle.palm_cli.specs.Stock.{guide_answers, guide_hears, guide_state};

    ghost state = { guide_state };

    ghost answers = { guide_answers };

    ghost hears = { guide_hears };

    fn pick(&mut self, view: &[ViewRow]) -> Option<Pair> {
        match self {
            StockGuide::First(guide) => guide.pick(view),
            StockGuide::Smallest(guide) => guide.pick(view),
            StockGuide::Most(guide) => guide.pick(view),
        }
    }

    fn learned(&mut self, conflict: &[Var]) {
        match self {
            StockGuide::First(guide) => guide.learned(conflict),
            StockGuide::Smallest(guide) => guide.learned(conflict),
            StockGuide::Most(guide) => guide.learned(conflict),
        }
    }
}

/// A stock order. It answers and hears as the one inside.
#[derive(Drop)]
pub enum StockOrder {
    Last(LastOrder),
    Rotate(RotateOrder),
}

impl Order for StockOrder {
    ghost use Rattle.palm_cli.specs.Stock.{order_answers, order_hears, order_state};

    ghost state = { order_state };

    ghost answers = { order_answers };

    ghost hears = { order_hears };

    fn next(&mut self, pending: &[Cid]) -> usize {
        match self {
            StockOrder::Last(order) => order.next(pending),
            StockOrder::Rotate(order) => order.next(pending),
        }
    }

    fn ran(&mut self, cid: Cid, removed: u32) {
        match self {
            StockOrder::Last(order) => order.ran(cid, removed),
            StockOrder::Rotate(order) => order.ran(cid, removed),
        }
    }
}

/// The stock guides under the numbers 1, 2 and 3.
pub(crate) fn stock_guides(alloc: Global) -> Result<Vec<StockGuide>, NoMemory>
    ensures stock { IfOk result (λ guides. AreStockGuides guides.items) }
    ensures three { IfOk result (λ guides. vec_len guides ≡ 3) }
{
    let mut guides = Vec::new(alloc);
    guides.push(StockGuide::First(FirstGuide::new()))?;
    guides.push(StockGuide::Smallest(SmallestGuide::new()))?;
    let numbers = MostConflicts::new(alloc, MOST_VARIABLES as u32)?;
    guides.push(StockGuide::Most(numbers))?;
    Ok(guides)
}

/// The stock orders under the numbers 1 and 2.
pub(crate) fn stock_orders(alloc: Global) -> Result<Vec<StockOrder>, NoMemory>
    ensures stock { IfOk result (λ orders. AreStockOrders orders.items) }
    ensures two { IfOk result (λ orders. vec_len orders ≡ 2) }
{
    let mut orders = Vec::new(alloc);
    orders.push(StockOrder::Last(LastOrder::new()))?;
    orders.push(StockOrder::Rotate(RotateOrder::new()))?;
    Ok(orders)
}
