// Runs cases of tokens and of printed lists, good and damaged.
// The cases are made by tools/format_cases.py; the expected output comes from outside: tools/expected_format_vectors.py
// computes it from the rules.
#![tactic(auto)]

mod buffer;
mod cases;
mod lists;
mod refusals;
mod tokens;

use cases::{Case, Cases, Under};
use lists::list_case;
use refusals::show_refusals;
use roots::Holder;
use sha3::Sha3;
use sha256::Sha256;
use std::fs;
use tokens::token_case;

// Runs each case of a file under a title, and answers how many there are.
fn run_cases<'a, F: FnMut(Case<'a>) -> anyhow::Result<()>>(
    rt: &HostRuntime,
    title: &str,
    all: &'a [u8],
    mut run: F,
) -> anyhow::Result<u64>
    requires { F.IsAlwaysCallable run }
{
    println!(rt; "{title}")?;
    let mut count = 0u64;
    for case in Cases::of(all) {
        run(case)?;
        count = count.saturating_add(1);
    }
    Ok(count)
}

fn run_tokens(rt: &HostRuntime) -> anyhow::Result<u64> {
    let all = fs::read(rt, "tokens.cases")?;
    run_cases(rt, "tokens", all.as_slice(), |case| match case.under {
        Under::Sha256 => token_case::<Sha256>(rt, case),
        Under::Sha3 => token_case::<Sha3>(rt, case),
    })
}

// A holder for each hash keeps its list from case to case.
fn run_lists(rt: &HostRuntime) -> anyhow::Result<u64> {
    let all = fs::read(rt, "lists.cases")?;
    let mut first = Holder::<Sha256>::empty();
    let mut second = Holder::<Sha3>::empty();
    run_cases(rt, "lists", all.as_slice(), |case| match case.under {
        Under::Sha256 => list_case(rt, &mut first, case),
        Under::Sha3 => list_case(rt, &mut second, case),
    })
}

fn run(rt: &HostRuntime) -> anyhow::Result<()> {
    let tokens = run_tokens(rt)?;
    let lists = run_lists(rt)?;
    show_refusals(rt)?;
    println!(rt; "done: {tokens} token cases, {lists} list cases")?;
    Ok(())
}

fn main(rt: HostRuntime) -> anyhow::Result<()> {
    run(&rt)
}
