//! How two jobs compare, as the table has it.

use pcl_same::{
    AskedComparison, AskedDifference, AsksDifference, Difference, ExitDifference, PagesDifference,
    SameFault, Which,
};
use std::alloc::{AllocError, Global};

/// An answer in words.
pub(crate) fn words_of(
    alloc: Global,
    answer: Result<AskedComparison, SameFault>,
) -> Result<String, AllocError> {
    let mut words = String::new(alloc);
    match answer {
        Ok(AskedComparison::Same) => words.push_str("same")?,
        Ok(AskedComparison::Pages(difference)) => say_pages(difference, &mut words)?,
        Ok(AskedComparison::Asks(difference)) => say_asks(difference, &mut words)?,
        Err(SameFault::Refused { which, refusal }) => {
            let which = match which {
                Which::First => "first",
                Which::Second => "second",
            };
            write!(words, "{which} refused at {}", refusal.at)?;
        }
        Err(SameFault::Memory) => words.push_str("out of memory")?,
    }
    Ok(words)
}

/// Says how pages differ.
fn say_pages(difference: PagesDifference, words: &mut String) -> Result<(), AllocError> {
    match difference {
        PagesDifference::Count { first, second } => write!(words, "pages {first} {second}")?,
        PagesDifference::Page { number, difference } => {
            write!(words, "page {number}: ")?;
            say_page(difference, words)?;
        }
    }
    Ok(())
}

/// Says how a page differs from another.
fn say_page(difference: Difference, words: &mut String) -> Result<(), AllocError> {
    match difference {
        Difference::Size { first, second } => write!(words, "size {first:?} {second:?}")?,
        Difference::Copies { first, second } => write!(words, "copies {first} {second}")?,
        Difference::Dot { x, y } => write!(words, "dot {x} {y}")?,
    }
    Ok(())
}

/// Says how what is asked differs.
fn say_asks(difference: AsksDifference, words: &mut String) -> Result<(), AllocError> {
    match difference {
        AsksDifference::Page { number, difference } => {
            write!(words, "page {number}: ")?;
            say_asked(difference, words)?;
        }
        AsksDifference::ExitCount { first, second } => write!(words, "exits {first} {second}")?,
        AsksDifference::Exit { number, difference } => {
            write!(words, "exit {number}: ")?;
            say_exit(difference, words)?;
        }
        AsksDifference::Separation => words.push_str("separation")?,
        AsksDifference::Lasting => words.push_str("kept or ejected")?,
    }
    Ok(())
}

/// Says how what a page is asked with differs.
fn say_asked(difference: AskedDifference, words: &mut String) -> Result<(), AllocError> {
    match difference {
        AskedDifference::Reset => words.push_str("reset")?,
        AskedDifference::Setting(difference) => {
            let setting = difference.setting;
            let first = difference.first;
            let second = difference.second;
            write!(words, "{setting:?} {first:?} {second:?}")?;
        }
    }
    Ok(())
}

/// Says how a universal exit differs from another.
fn say_exit(difference: ExitDifference, words: &mut String) -> Result<(), AllocError> {
    match difference {
        ExitDifference::Place { first, second } => write!(words, "place {first} {second}")?,
        ExitDifference::Reset => words.push_str("reset")?,
        ExitDifference::Lines => words.push_str("lines")?,
    }
    Ok(())
}
