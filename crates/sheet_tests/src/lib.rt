// Sheets that are read and sheets that are refused. The expected numbers and bytes are worked out by
// hand from the rules of sheets.
#![tactic(auto)]

#[cfg(test)]
mod clean;
#[cfg(test)]
mod fields;
#[cfg(test)]
mod headers;
#[cfg(test)]
mod kinds;
#[cfg(test)]
mod limits;
#[cfg(test)]
mod readings;
#[cfg(test)]
mod tokens;
