//! Tests of books, on examples.
#![tactic(auto)]

#[cfg(test)]
mod books;
#[cfg(test)]
mod checks;
#[cfg(test)]
mod judged;
#[cfg(test)]
mod judged_text;
#[cfg(test)]
mod loading;
#[cfg(test)]
mod made;
#[cfg(test)]
mod pairs;
#[cfg(test)]
mod refusals;
#[cfg(test)]
mod rules;
#[cfg(test)]
mod text;
#[cfg(test)]
mod worked;
