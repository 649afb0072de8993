mod of_acpi_extract;
mod of_data_generic;
mod of_data_layout;
mod of_data_tables;
mod of_data_text;
mod of_hex_text;
mod of_more_tables;
