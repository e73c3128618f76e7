//! The exact sum of products of fractions, however wide the numbers on the way to it.

mod lowest;
mod products;
mod words;

pub use products::{MOST_PRODUCTS, Product, sum_of_products};
