// An embedded controller as firmware has it, and what is told of it.

pub(super) const CONTROLLER: &[u8] =
    b"DefinitionBlock (\"ec.aml\", \"SSDT\", 2, \"OEMX00\", \"ECTABLE\", 0x1000)
{
    External (\\_SB.PCI0, DeviceObj)
    Scope (\\_SB.PCI0) {
        Device (EC0) {
            Name (_HID, EisaId (\"PNP0C09\"))
            Name (_CRS, ResourceTemplate () {
                IO (Decode16, 0x62, 0x62, 0x00, 0x01)
                IO (Decode16, 0x66, 0x66, 0x00, 0x01) })
            OperationRegion (ERAM, EmbeddedControl, 0x00, 0xFF)
            Field (ERAM, ByteAcc, NoLock, Preserve) {
                Offset (0x10), LID, 1, , 7, TEMP, 8 }
            Method (_STA, 0, NotSerialized) { Return (0x0F) }
            Method (_DSM, 4, Serialized) {
                If (Arg0 == ToUUID (\"e5c937d0-3553-4d7a-9117-ea4d19c3434d\")) {
                    Switch (ToInteger (Arg2)) {
                        Case (0) { Return (Buffer () { 0x03 }) }
                        Case (1) { Return (TEMP) } } }
                Return (Buffer () { 0x00 })
            }
        }
    }
}
";

pub(super) const CONSOLE: &[u8] = b"ec.aml: SSDT, 218 bytes\n0 errors, 0 warnings, 0 remarks\n";
