// stores_demo: gives a flat store and a chained one the same calls, over both kinds of key, and prints what they answered.
#![tactic(auto)]

mod pair;
mod passes;
mod samples;
mod tally;

use anyhow::Context;
use chained_store::Chained;
use flat_store::Flat;
use keys::Key;
use pair::Pair;
use samples::{KEYS, activation_keys, rule_keys};
use std::io;
use stores::{Row, Store};
use tally::Tally;

// The room of each store, and the links of a chained one: one for each row, and those of five buckets.
const ROOM: usize = 8;

const LINKS: usize = 13;

// Prints how often the answer was yes, and whether both stores gave the same answers.
fn report(rt: &HostRuntime, what: &str, tally: Tally) -> io::Result<()> {
    let yes = tally.yes;
    let verdict = if tally.agree {
        "the stores agree"
    } else {
        "THE STORES DIFFER"
    };
    println!(rt; "  {what} {yes}; {verdict}")
}

// Fills the stores up and beyond, empties them in part, and looks at what is there.
fn run<
    K: Key + Copy,
    A: Store<Key = K, Record = u32> + Drop,
    B: Store<Key = K, Record = u32> + Drop,
>(rt: &HostRuntime, pair: &mut Pair<K, A, B>, keys: &[K], scratch: K) -> io::Result<()> {
    report(rt, "put 12 keys: taken", pair.put_all(keys, 7))?;
    report(rt, "find 12 keys: found", pair.find_all(keys))?;
    report(
        rt,
        "put 12 keys with the record 0: taken",
        pair.put_all(keys, 0),
    )?;
    report(rt, "find 12 keys: found", pair.find_all(keys))?;
    report(rt, "remove 12 keys: removed", pair.remove_all(keys))?;
    report(rt, "walk: keys", pair.walk_all(scratch))?;
    report(rt, "put 12 keys: taken", pair.put_all(keys, 9))?;
    report(rt, "walk: keys", pair.walk_all(scratch))?;
    pair.remove_bearer(1, scratch);
    report(
        rt,
        "remove the keys of bearer 1, walk: keys",
        pair.walk_all(scratch),
    )?;
    report(rt, "put 12 keys: taken", pair.put_all(keys, 7))
}

// Makes both stores for a kind of key over rows that are lent, and runs them.
fn run_kind<K: Key + Copy>(
    rt: &HostRuntime,
    what: &str,
    keys: &[K; KEYS],
    flat_rows: &mut [Row<K, u32>],
    chained_rows: &mut [Row<K, u32>],
) -> anyhow::Result<()> {
    let scratch = keys[0];
    let mut links = [0; LINKS];
    let chained = Chained::over(chained_rows, &mut links).context("there is no link for a bucket")?;
    let mut pair = Pair::matched(Flat::over(flat_rows), chained, scratch).context(
        "the stores have not the same room",
    )?;
    println!(rt; "{what}")?;
    println!(rt; "room for {ROOM}")?;
    run(rt, &mut pair, keys, scratch)?;
    Ok(())
}

fn main(rt: HostRuntime) -> anyhow::Result<()> {
    let rules = rule_keys().context("a name has no octet, or too many")?;
    let activations = activation_keys().context("a name has no octet, or too many")?;
    let row = Row {
        key: rules[0],
        value: 0,
    };
    run_kind(&rt, "rule keys", &rules, &mut [row; ROOM], &mut [row; ROOM])?;
    let row = Row {
        key: activations[0],
        value: 0,
    };
    run_kind(
        &rt,
        "activation keys",
        &activations,
        &mut [row; ROOM],
        &mut [row; ROOM],
    )
}
