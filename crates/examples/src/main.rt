// Worked examples: what the calls answer at and past their limits. The file stdout has the answers that are expected.
#![tactic(auto)]

mod counts;
mod proved;
mod rules;
mod say;
mod states;
mod words;

use say::Failed;

fn main(rt: HostRuntime) -> Result<(), Failed> {
    proved::meets_at_the_third_window();
    words::show(&rt)?;
    rules::show(&rt)?;
    states::show(&rt)?;
    counts::show(&rt)
}
