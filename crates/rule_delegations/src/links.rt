//! Where the file below each rule stands.

ghost use Rattle.std.specs.Prelude.{◌≡◌, ◌<◌, ◌^◌, List, ℕ, length, map, IfOk, IsTrue, OnOk};
ghost use Rattle.std.specs.Str.{bytes_eq};
ghost use Rattle.std.specs.BTreeMap as tree;
ghost use Rattle.octets.specs.BytesMap.{by_bytes};
ghost use Rattle.rule_delegations.specs.Forests.{AreFew, links_of, or_place, place_named};

use crate::forest::{Forest, Links};
use octets::{Items, Memory, Octets};
use rule_files::{Rule, RuleFile, RuleFiles};
use std::alloc::Global;
use std::collections::BTreeMap;

// The place of the first file of each name.
fn places_of(alloc: Global, files: &[RuleFile]) -> Result<BTreeMap<Octets, u32>, Memory>
    requires { length files.now < 2 ^ 32 }
    ensures { IfOk result (λ places. (name : List ℕ) → tree.get by_bytes places name ≡ place_named files.now name) }
{
    let mut places = BTreeMap::new(alloc);
    for (at, file) in files.iter().enumerate() {
        add_place(&mut places, &file.name, at as u32)?;
    }
    Ok(places)
}

// Keeps a place under a name that has none.
fn add_place(places: &mut BTreeMap<Octets, u32>, name: &Octets, at: u32) -> Result<(), Memory>
    ensures { OnOk result ((q : List ℕ) → tree.get by_bytes places.new q ≡ or_place (tree.get by_bytes places.old q)
        (bytes_eq q name.now) at) }
{
    if places.get(name).is_some() {
        return Ok(());
    }
    let _had = places.insert(name.copy()?, at)?;
    Ok(())
}

// The places of the files below rules.
fn links_in(
    alloc: Global,
    places: &BTreeMap<Octets, u32>,
    rules: &[Rule],
) -> Result<Items<Option<u32>>, Memory>
    ensures { IfOk result (λ links. links ≡ map (λ rule. tree.get by_bytes places.now rule.name) rules.now) }
{
    let mut links = Items::new(alloc);
    for rule in rules {
        links.push(places.get(&rule.name).copied())?;
    }
    Ok(links)
}

// The place of the file below each rule of each file.
fn all_links(alloc: Global, files: &[RuleFile]) -> Result<Links, Memory>
    requires { length files.now < 2 ^ 32 }
    ensures { IfOk result (λ below. below ≡ map (links_of files.now) files.now) }
{
    let places = places_of(alloc, files)?;
    let mut below = Links::new(alloc);
    for file in files {
        below.push(links_in(alloc, &places, file.rules.as_slice())?)?;
    }
    Ok(below)
}

// Whether files, and the rules and the keys of each, can be numbered in 32 bits.
fn are_few(files: &[RuleFile]) -> bool
    ensures { IsTrue result → AreFew files.now }
{
    if files.len() > u32::MAX as usize {
        return false;
    }
    for file in files {
        if file.rules.len() > u32::MAX as usize {
            return false;
        }
        if file.keys.len() > u32::MAX as usize {
            return false;
        }
    }
    true
}

/// Files with the place of the file below each rule. Files that memory cannot hold are answered for want of it.
pub(crate) fn link(alloc: Global, files: RuleFiles) -> Result<Forest, Memory>
    ensures { IfOk result (λ forest. forest ≡ files) }
{
    if !are_few(files.as_slice()) {
        return Err(Memory);
    }
    let below = all_links(alloc, files.as_slice())?;
    Ok(Forest::new(files, below))
}
