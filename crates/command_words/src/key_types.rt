//! The words of `key-gen`.

ghost use Rattle.std.specs.Prelude.{◌≡◌, ◌≢◌, ◌↔◌, IsTrue, Option, codes, map, option_map, string_bytes, IfOk, IfSome};
ghost use Rattle.std.specs.Prelude.{IfNone, IsErrOf, Some};
ghost use Rattle.clap.specs.Words.{app_of, first_of, found_of, rows_of};
ghost use Rattle.command_words.specs.Commands.{AreTwo, IsBottom, height_text, key_gen_app, width_text};
ghost use Rattle.command_words.specs.FirstWords.{AsksFor, AsksForNone};
ghost use Rattle.command_words.specs.declared.commands.CommandName.TheVariants as name;
ghost use Rattle.command_words.specs.declared.commands.Height.{Height};
ghost use Rattle.command_words.specs.declared.commands.Width.{Width};

use crate::arguments::{bare_command, option, positional, take_words, value_in, with_argument};
use crate::commands::{Command, Height, Width};
use crate::first_words::is_word;
use crate::words_fault::WordsFault;
use clap::ArgMatches;
use std::alloc::{AllocError, Global};

fn key_gen_command<'a>(alloc: Global) -> Result<clap::Command<'a>, AllocError>
    ensures { IfOk result (λ c. app_of c ≡ key_gen_app) }
{
    let command = with_argument(bare_command(alloc, "key-gen"), positional(alloc, "height"))?;
    let command = with_argument(command, positional(alloc, "width"))?;
    with_argument(command, option(alloc, "bottom"))
}

// The height that a text stands for; None where it stands for none.
fn height_at(text: &str) -> Option<Height>
    ensures found { IfSome result (λ height. text.now ≡ height_text height) }
    ensures none { IfNone result ((height : Height) → text.now ≢ height_text height) }
{
    if is_word(text, "5") {
        return Some(Height::H5);
    }
    if is_word(text, "10") {
        return Some(Height::H10);
    }
    if is_word(text, "15") {
        return Some(Height::H15);
    }
    None
}

// The width that a text stands for; None where it stands for none.
fn width_at(text: &str) -> Option<Width>
    ensures found { IfSome result (λ width. text.now ≡ width_text width) }
    ensures none { IfNone result ((width : Width) → text.now ≢ width_text width) }
{
    if is_word(text, "1") {
        return Some(Width::W1);
    }
    if is_word(text, "2") {
        return Some(Width::W2);
    }
    if is_word(text, "4") {
        return Some(Width::W4);
    }
    if is_word(text, "8") {
        return Some(Width::W8);
    }
    None
}

// The height that is asked for.
fn height_in(matches: &ArgMatches) -> Option<Height>
    ensures found { IfSome result (λ height. first_of (codes "height") (rows_of (found_of matches.now))
        ≡ Some (height_text height)) }
    ensures none { IfNone result ((height : Height) → first_of (codes "height") (rows_of (found_of matches.now))
        ≢ Some (height_text height)) }
{
    height_at(value_in(matches, "height")?)
}

// The width that is asked for.
fn width_in(matches: &ArgMatches) -> Option<Width>
    ensures found { IfSome result (λ width. first_of (codes "width") (rows_of (found_of matches.now))
        ≡ Some (width_text width)) }
    ensures none { IfNone result ((width : Width) → first_of (codes "width") (rows_of (found_of matches.now))
        ≢ Some (width_text width)) }
{
    width_at(value_in(matches, "width")?)
}

// Whether a key of two levels may have trees of these heights: each 5 or 10, and not both 10.
fn are_two(height: Height, bottom: Height) -> bool
    ensures { IsTrue result ↔ AreTwo height bottom }
{
    match (height, bottom) {
        (Height::H5, Height::H5) => true,
        (Height::H5, Height::H10) => true,
        (Height::H10, Height::H5) => true,
        _ => false,
    }
}

// The height of the trees below that a text stands for; None where it stands for none that may be.
fn bottom_at(text: &str, height: Height) -> Option<Height>
    ensures found { IfSome result (λ bottom. (text.now ≡ height_text bottom) × AreTwo height bottom) }
    ensures none { IfNone result ((bottom : Height) → text.now ≡ height_text bottom → AreTwo height bottom → ⊥) }
{
    let bottom = height_at(text)?;
    if !are_two(height, bottom) {
        return None;
    }
    Some(bottom)
}

// The height of the trees below, which is none where the option is not given.
fn bottom_in(matches: &ArgMatches, height: Height) -> Result<Option<Height>, WordsFault>
    ensures found { IfOk result (IsBottom (first_of (codes "bottom") (rows_of (found_of matches.now))) height) }
    ensures outside { IsErrOf result WordsFault.Outside → (bottom : Option Height)
        → IsBottom (first_of (codes "bottom") (rows_of (found_of matches.now))) height bottom → ⊥ }
{
    let Some(text) = value_in(matches, "bottom") else {
        return Ok(None);
    };
    let Some(bottom) = bottom_at(text, height) else {
        return Err(WordsFault::Outside);
    };
    Ok(Some(bottom))
}

/// The command of the words after `key-gen`. `Outside` comes exactly where they ask for none, want of memory aside.
pub(crate) fn read_key_gen(alloc: Global, words: &[String]) -> Result<Command, WordsFault>
    ensures found { IfOk result (AsksFor name.KeyGen (map string_bytes words.now)) }
    ensures outside { IsErrOf result WordsFault.Outside → AsksForNone name.KeyGen (map string_bytes words.now) }
{
    let Ok(command) = key_gen_command(alloc) else {
        return Err(WordsFault::Memory);
    };
    let matches = take_words(command, words)?;
    let Some(height) = height_in(&matches) else {
        return Err(WordsFault::Outside);
    };
    let Some(width) = width_in(&matches) else {
        return Err(WordsFault::Outside);
    };
    let bottom = bottom_in(&matches, height)?;
    Ok(Command::KeyGen {
        height,
        width,
        bottom,
    })
}
