//! Version 1 of the plan text.

use anyhow::{Context, Result};
use std::alloc::Global;

/// The records that name a list of prices.
const PRICED_WORDS: [&str; 3] = ["PRICED ", "CROWD ", "OPEN "];

/// Adds a record of this word with the prices in the place of their list's number.
fn push_prices(text: &mut String, word: &str, number: &str, lists: &[&str]) -> Result<()> {
    let number = number.parse::<usize>().context("no number of a list")?;
    let prices = lists.get(number).context("no such list")?;
    write!(text, "{word}{prices}\n")?;
    Ok(())
}

/// Adds the line with the prices in the place of their list's number, where it is a record that names one. False where it
/// is none.
fn push_priced(text: &mut String, line: &str, lists: &[&str]) -> Result<bool> {
    for word in PRICED_WORDS.iter() {
        if let Some(number) = line.strip_prefix(word) {
            push_prices(text, word, number, lists)?;
            return Ok(true);
        }
    }
    Ok(false)
}

/// Adds the line of the sizes of a plan whose links have one price each.
fn push_sizes(text: &mut String, sizes: &str) -> Result<()> {
    let sizes = sizes.strip_suffix(" ONE").context("two places")?;
    write!(text, "SIZE {sizes}\n")?;
    Ok(())
}

/// Adds the line of version 1 for this line of version 2, where there is one, and takes note of a list.
fn push_line<'a>(text: &mut String, lists: &mut Vec<&'a str>, line: &'a str) -> Result<()> {
    if let Some(prices) = line.strip_prefix("P ") {
        lists.push(prices)?;
    } else if let Some(sizes) = line.strip_prefix("SIZE ") {
        push_sizes(text, sizes)?;
    } else if line == "SNDPLAN 2" {
        text.push_str("SNDPLAN 1\n")?;
    } else if !push_priced(text, line, lists.as_slice())? && !line.starts_with("PRICES ") {
        write!(text, "{line}\n")?;
    }
    Ok(())
}

/// The version 1 text of the plan that this version 2 text spells, where links have one price each.
pub(crate) fn first_text(alloc: Global, plan: &str) -> Result<String> {
    let mut text = String::new(alloc);
    let mut lists = Vec::new(alloc);
    for line in plan.lines() {
        push_line(&mut text, &mut lists, line)?;
    }
    Ok(text)
}
