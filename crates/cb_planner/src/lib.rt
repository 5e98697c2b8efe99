//! The plan of each operation, by the shapes of its operands, and the operands that it is made for.
//!
//! [`plan_of`] returns one plan that is right over every semiring, as `specs/OperationPlans` defines in one line. Operands
//! over a grid are cut ([`scattered`]), checked ([`shape_in`]), planned and given their slots ([`ready`]) here, whatever
//! runs the plan.
#![tactic(auto)]

mod operation_plans;
mod scattered_operands;

pub use operation_plans::plan_of;
pub use scattered_operands::{empty_product, ready, scattered, shape_in, whole_shape_in};
