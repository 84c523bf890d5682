// Worked examples: computed from the definitions that the contracts cite, and tests of the calls.
#![tactic(auto)]

ghost use Rattle.examples.specs.Examples.{Worked, WorkedSolving};

#[cfg(test)]
mod tests;

// What the definitions give on the worked examples.
pub fn worked_examples()
    ensures worked { Worked }
    ensures solving { WorkedSolving }
{}
