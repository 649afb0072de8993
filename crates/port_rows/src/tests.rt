mod of_generated_lines;
mod of_host_ports;
mod of_iasl_backends;
mod of_iasl_messages;
mod of_iasl_options;
mod of_iasl_ports;
mod of_source_lines;
mod of_tasks;
