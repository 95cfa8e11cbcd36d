//! Tests of `toll_plant`: the words of the plant, and the commands that they give; and files of actuals
//! that are imported, along stories of the office.

mod cuts;
mod files;
mod imports;
mod tests;
mod usages;
