//! What holds of the definitions. No call needs these functions: their contracts are the laws.

ghost use Rattle.leaf_journal.specs.Runs.{in_use};
ghost use Rattle.evidence.specs.Breaks.{OneDossier};
ghost use Rattle.evidence.specs.Finding.{Findings};
ghost use Rattle.evidence.specs.Honest.{HonestClean};
ghost use Rattle.evidence.specs.SignatureParts.{UsesAreParts};

use edge_io::Disk;

/// A dossier has one text and a text at most one dossier; no text is both a dossier's and refused, and it is refused
/// at one place.
pub fn one_dossier()
    ensures { OneDossier }
{}

/// What a good signature uses is what it is spelled of: by each level a key, the leaf that the key's signature names,
/// and the next key or at last the message.
pub fn uses_are_parts()
    ensures { UsesAreParts }
{}

/// A fork is found exactly where the key signed two entries of one number, and a leaf exactly where it is the first
/// of the left signature's that the right one uses for another message.
pub fn findings()
    ensures { Findings }
{}

/// Two signatures that are made with two leaves which one key run released, for a key file whose top key and keys
/// below it all differ, never use one leaf of one key for two messages.
pub fn honest_clean<D: Disk>()
    ensures { HonestClean (in_use D.Disk) }
{}
