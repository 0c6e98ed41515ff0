// A project: its main module, and an exclude layer over any source, the pile. The layer has the project's exclusions.
use crate::main_module::MainModule;
use layers::exclude::Exclude;

pub mod changes;
pub mod lists;
pub mod lowering;
pub mod reads;

#[derive(Drop)]
pub struct Project<S> {
    main: MainModule,
    layer: Exclude<S>,
}
