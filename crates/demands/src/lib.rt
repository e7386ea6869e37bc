// The three demands (RULES 11), each as one claim about the calls.
#![tactic(auto)]

ghost use Rattle.demands.specs.Demand1.{Demand1};
ghost use Rattle.demands.specs.Demand2.{Demand2};
ghost use Rattle.demands.specs.Demand3.{Demand3};

// Demand 1: a bad call gets its number, and nothing else changes.
pub fn demand_1() -> bool
    ensures { Demand1 }
{
    true
}

// Demand 2: sizes, places and refusals follow the rules.
pub fn demand_2() -> bool
    ensures { Demand2 }
{
    true
}

// Demand 3: after every series of calls the census lists the book.
pub fn demand_3() -> bool
    ensures { Demand3 }
{
    true
}
