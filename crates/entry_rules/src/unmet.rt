//! Which of many paths is the first that signers do not meet.

ghost use Rattle.std.specs.Prelude.{◌≡◌, ◌<◌, ◌++◌, IfOk, IfSome, OnOk};
ghost use Rattle.std.specs.List.{find};
ghost use Rattle.std.specs.Option.{option_copied};
ghost use Rattle.entry_rules.specs.Changing.{is_unmet};

use crate::changes::first_unmet;
use known_signers::{copied_file, same_items};
use octets::{Items, Memory, Octets};
use root_metadata::KeyIds;
use rule_delegations::Rules;
use rule_files::{RuleFile, RuleFiles};
use std::alloc::Global;
use std::marker::Model;

/// A text of one's own.
pub fn copied_text(text: Option<&Octets>) -> Result<Option<Octets>, Memory>
    ensures { IfOk result (λ copy. copy ≡ option_copied text.entry) }
{
    match text {
        Some(text) => Ok(Some(text.copy()?)),
        None => Ok(None),
    }
}

/// Adds copies of rule files at the end of a list.
pub fn append_files(alloc: Global, list: &mut RuleFiles, files: &[RuleFile]) -> Result<(), Memory>
    ensures { OnOk result (list.new ≡ list.old ++ files.now) }
{
    'files: for file in files {
        list.push(copied_file(alloc, file)?)?;
    }
    Ok(())
}

fn append_paths(list: &mut Items<Octets>, paths: &[Octets]) -> Result<(), Memory>
    ensures { OnOk result (list.new ≡ list.old ++ paths.now) }
{
    'paths: for path in paths {
        list.push(path.copy()?)?;
    }
    Ok(())
}

/// Rule files, signers and paths, and the first of the paths that the signers do not meet.
#[derive(Drop)]
struct FoundUnmet {
    files: RuleFiles,
    signers: KeyIds,
    paths: Items<Octets>,
    first: Option<Octets>,
}

impl Model for FoundUnmet {
    ghost use Rattle.std.specs.Prelude.{◌≡◌, ℕ, List, Option};
    ghost use Rattle.std.specs.List.{find};
    ghost use Rattle.entry_rules.specs.Changing.{is_unmet};

    ghost Value = { List (List ℕ) };

    ghost view = { λ f. f.paths };

    ghost invariant = { λ f. f.first ≡ find (is_unmet f.files f.signers) f.paths };
}

impl FoundUnmet {
    // That this is the first of the paths.
    fn of(
        alloc: Global,
        rules: &Rules,
        signers: &KeyIds,
        paths: &[Octets],
        first: Option<&Octets>,
    ) -> Result<FoundUnmet, Memory>
        requires { option_copied first ≡ find (is_unmet rules.now signers.now) paths.now }
    {
        let mut files = RuleFiles::new(alloc);
        append_files(alloc, &mut files, rules.files())?;
        let mut list = Items::new(alloc);
        append_paths(&mut list, paths)?;
        let signers = signers.copy()?;
        let first = copied_text(first)?;
        Ok(FoundUnmet {
            files,
            signers,
            paths: list,
            first,
        })
    }

    // The first of the paths, where it was found of these rules and these signers.
    fn first_of(&self, rules: &Rules, signers: &KeyIds, paths: &[Octets]) -> Option<&Option<Octets>>
        ensures { IfSome (option_copied result) (λ first. first ≡ find (is_unmet rules.now signers.now) paths.now) }
    {
        if !same_items(self.paths.as_slice(), paths) {
            return None;
        }
        if !same_items(self.signers.as_slice(), signers.as_slice()) {
            return None;
        }
        if !same_items(self.files.as_slice(), rules.files()) {
            return None;
        }
        Some(&self.first)
    }
}

// The most rows, and the most bytes of their paths.
const MOST_ROWS: usize = 16;

const MOST_BYTES: usize = 67_108_864;

/// What was found of paths: at most 16 rows. Where there is no room for one more, all are let go first.
#[derive(Drop)]
pub struct UnmetRows {
    rows: Vec<FoundUnmet>,
    bytes: usize,
}

impl Model for UnmetRows {
    ghost use Rattle.std.specs.Prelude.{◌≤◌, ℕ, length};

    ghost Value = { ℕ };

    ghost view = { λ r. length r.rows.items };

    ghost invariant = { λ r. length r.rows.items ≤ 16 };
}

// About how many bytes paths take.
fn bytes_of(paths: &[Octets]) -> usize {
    let mut bytes: usize = 0;
    'paths: for path in paths {
        bytes = bytes.saturating_add(path.len()).saturating_add(48);
    }
    bytes
}

impl UnmetRows {
    /// None. It takes no memory.
    pub fn new(alloc: Global) -> UnmetRows {
        UnmetRows {
            rows: Vec::new(alloc),
            bytes: 0,
        }
    }

    fn find(&self, rules: &Rules, signers: &KeyIds, paths: &[Octets]) -> Option<&Option<Octets>>
        ensures { IfSome (option_copied result) (λ first. first ≡ find (is_unmet rules.now signers.now) paths.now) }
    {
        'rows: for row in self.rows.as_slice() {
            if let Some(first) = row.first_of(rules, signers, paths) {
                return Some(first);
            }
        }
        None
    }

    // Lets all rows go where there is no room for one more of so many bytes.
    fn make_room(&mut self, bytes: usize)
        ensures { self.new < 16 }
    {
        if self.rows.len() < MOST_ROWS && self.bytes.saturating_add(bytes) <= MOST_BYTES {
            return;
        }
        self.rows.clear();
        self.bytes = 0;
    }

    // Keeps what was found. After a want of memory it may have let go what it kept.
    fn keep(
        &mut self,
        alloc: Global,
        rules: &Rules,
        signers: &KeyIds,
        paths: &[Octets],
        first: Option<&Octets>,
    ) -> Result<(), Memory>
        requires { option_copied first ≡ find (is_unmet rules.now signers.now) paths.now }
    {
        let bytes = bytes_of(paths);
        self.make_room(bytes);
        let row = FoundUnmet::of(alloc, rules, signers, paths, first)?;
        self.rows.push(row)?;
        self.bytes = self.bytes.saturating_add(bytes);
        Ok(())
    }

    /// The first of the paths that the signers do not meet. What was found of the same before is not looked for again.
    pub fn first_unmet(
        &mut self,
        alloc: Global,
        rules: &Rules,
        signers: &KeyIds,
        paths: &[Octets],
    ) -> Result<Option<Octets>, Memory>
        ensures { IfOk result (λ first. first ≡ find (is_unmet rules.now signers.now) paths.now) }
    {
        if let Some(first) = self.find(rules, signers, paths) {
            return copied_text(first.as_ref());
        }
        let first = first_unmet(rules, paths, signers);
        let _kept = self.keep(alloc, rules, signers, paths, first);
        copied_text(first)
    }
}
