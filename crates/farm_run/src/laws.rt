//! Laws of runs, each the contract of a function that does nothing.

ghost use Rattle.std.specs.Prelude.{ℕ, Bool, List};
ghost use Rattle.trau_io.specs.declared.line.Side.{Side};
ghost use Rattle.trau_io.specs.Lines.{LineState};
ghost use Rattle.trau_orders.specs.declared.order.Order.{Order};
ghost use Rattle.trau_orders.specs.Lists.{AreOrders};
ghost use Rattle.run_spec.specs.Run.{Run};
ghost use Rattle.farm_run.specs.Runs.{AreTold, IsRunOver, ReadsOn};

/// A run exists whichever lines are said to have failed, if the orders are in range, the contents of all calls'
/// incoming lines are known, and these lines were only read from the start. So what a contract says of each such run
/// says something.
pub fn there_is_a_run()
    ensures { (orders : List Order) (periods : ℕ) (fails : ℕ → Side → Bool)
        (before now : ℕ → Side → LineState) →
        AreOrders orders → AreTold before → ReadsOn before now →
        (r : Run) × IsRunOver orders periods fails before now r }
{}
