mod of_asl_shape;
mod of_resource_layout;
mod of_resource_macros;
mod of_resource_serial;
