//! Each kernel on blocks once, on matrices that can be checked by hand: a line says what it makes. An example of how each is
//! called.
#![tactic(auto)]

mod graph_kernels;
mod matrix_kernels;
mod printing;
mod product_kernels;

use graph_kernels::{counts, searches, searches_from_several};
use matrix_kernels::{element_wise, parts, places, sums};
use product_kernels::{products, products_under_masks};

fn main(rt: HostRuntime) -> anyhow::Result<()> {
    products(&rt)?;
    products_under_masks(&rt)?;
    element_wise(&rt)?;
    sums(&rt)?;
    parts(&rt)?;
    places(&rt)?;
    searches(&rt)?;
    searches_from_several(&rt)?;
    counts(&rt)
}
