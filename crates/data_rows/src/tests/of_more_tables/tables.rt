//! Texts of tables. The bytes are those of ACPICA's compiler, and those of the VIOT a virtual machine's.
use super::Row;

pub(super) static TABLES: [Row; 15] = [
    // WAET of a virtual machine
    Row {
        signature: b"\"WAET\"",
        revision: b"01",
        lines: b"\
[0004] Flags (decoded below) : 00000002\n\
\x20RTC needs no INT ack : 0\n\
\x20PM timer, one read only : 1\n\
",
        bytes: b"\
\x02\0\0\0",
        told: b"",
    },
    // BERT
    Row {
        signature: b"\"BERT\"",
        revision: b"01",
        lines: b"\
[0004] Boot Error Region Length : 00000000\n\
[0008] Boot Error Region Address : A4C123B1612DD272\n\
",
        bytes: b"\
\0\0\0\0r\xD2-a\xB1#\xC1\xA4",
        told: b"",
    },
    // BGRT
    Row {
        signature: b"\"BGRT\"",
        revision: b"01",
        lines: b"\
[0002] Version : A4C1\n\
[0001] Status (decoded below) : 00\n\
\x20Displayed : 0\n\
\x20Orientation Offset : 0\n\
[0001] Image Type : 23\n\
[0008] Image Address : B1612DD272D1371C\n\
[0004] Image OffsetX : 17149D43\n\
[0004] Image OffsetY : 9536B321\n\
",
        bytes: b"\
\xC1\xA4\0#\x1C7\xD1r\xD2-a\xB1C\x9D\x14\x17!\xB36\x95",
        told: b"",
    },
    // SPCR of a virtual machine
    Row {
        signature: b"\"SPCR\"",
        revision: b"02",
        lines: b"\
[0001] Interface Type : 03\n\
[0003] Reserved : 000000\n\
[0012] Serial Port Register : [Generic Address Structure]\n\
[0001] Space ID : 00 [SystemMemory]\n\
[0001] Bit Width : 08\n\
[0001] Bit Offset : 00\n\
[0001] Encoded Access Width : 01 [Byte Access:8]\n\
[0008] Address : 0000000009000000\n\
[0001] Interrupt Type : 08\n\
[0001] PCAT-compatible IRQ : 00\n\
[0004] Interrupt : 00000021\n\
[0001] Baud Rate : 03\n\
[0001] Parity : 00\n\
[0001] Stop Bits : 01\n\
[0001] Flow Control : 02\n\
[0001] Terminal Type : 00\n\
[0001] Reserved : 00\n\
[0002] PCI Device ID : FFFF\n\
[0002] PCI Vendor ID : FFFF\n\
[0001] PCI Bus : 00\n\
[0001] PCI Device : 00\n\
[0001] PCI Function : 00\n\
[0004] PCI Flags : 00000000\n\
[0001] PCI Segment : 00\n\
[0004] Reserved : 00000000\n\
",
        bytes: b"\
\x03\0\0\0\0\x08\0\x01\0\0\0\x09\0\0\0\0\x08\0!\0\0\0\x03\0\x01\x02\0\0\xFF\xFF\xFF\xFF\0\0\
\0\0\0\0\0\0\0\0\0\0",
        told: b"",
    },
    // TPM2 of a virtual machine
    Row {
        signature: b"\"TPM2\"",
        revision: b"04",
        lines: b"\
[0002] Platform Class : 0000\n\
[0002] Reserved : 0000\n\
[0008] Control Address : 0000000000000000\n\
[0004] Start Method : 06 [Memory Mapped I/O]\n\
[0012] Method Parameters : 00 00 00 00 00 00 00 00 00 00 00 00\n\
[0004] Minimum Log Length : 00010000\n\
[0008] Log Address : 0000000007FF0000\n\
",
        bytes: b"\
\0\0\0\0\0\0\0\0\0\0\0\0\x06\0\0\0\0\0\0\0\0\0\0\0\0\0\0\0\0\0\x01\0\0\0\xFF\x07\0\0\0\0",
        told: b"",
    },
    // ERST: the first two of its entries
    Row {
        signature: b"\"ERST\"",
        revision: b"01",
        lines: b"\
[0004] Serialization Header Length : 00000030\n\
[0004] Reserved : 00000000\n\
[0004] Instruction Entry Count : 0000001B\n\
[0001] Action : 00 [Begin Write Operation]\n\
[0001] Instruction : 03 [Write Register Value]\n\
[0001] Flags (decoded below) : 00\n\
\x20Preserve Register Bits : 0\n\
[0001] Reserved : 00\n\
[0012] Register Region : [Generic Address Structure]\n\
[0001] Space ID : 00 [SystemMemory]\n\
[0001] Bit Width : 20\n\
[0001] Bit Offset : 00\n\
[0001] Encoded Access Width : 03 [DWord Access:32]\n\
[0008] Address : 00000000FEBF3000\n\
[0008] Value : 0000000000000000\n\
[0008] Mask : 00000000FFFFFFFF\n\
[0001] Action : 01 [Begin Read Operation]\n\
[0001] Instruction : 03 [Write Register Value]\n\
[0001] Flags (decoded below) : 00\n\
\x20Preserve Register Bits : 0\n\
[0001] Reserved : 00\n\
[0012] Register Region : [Generic Address Structure]\n\
[0001] Space ID : 00 [SystemMemory]\n\
[0001] Bit Width : 20\n\
[0001] Bit Offset : 00\n\
[0001] Encoded Access Width : 03 [DWord Access:32]\n\
[0008] Address : 00000000FEBF3000\n\
[0008] Value : 0000000000000001\n\
[0008] Mask : 00000000FFFFFFFF\n\
",
        bytes: b"\
0\0\0\0\0\0\0\0\x1B\0\0\0\0\x03\0\0\0 \0\x03\00\xBF\xFE\0\0\0\0\0\0\0\0\0\0\0\0\xFF\xFF\xFF\
\xFF\0\0\0\0\x01\x03\0\0\0 \0\x03\00\xBF\xFE\0\0\0\0\x01\0\0\0\0\0\0\0\xFF\xFF\xFF\xFF\0\0\0\
\0",
        told: b"",
    },
    // EINJ: two entries
    Row {
        signature: b"\"EINJ\"",
        revision: b"01",
        lines: b"\
[0004] Injection Header Length : 00000030\n\
[0001] Flags : A4\n\
[0003] Reserved : 000000\n\
[0004] Injection Entry Count : 0000000A\n\
[0001] Action : 00 [Begin Operation]\n\
[0001] Instruction : 00 [Read Register]\n\
[0001] Flags (decoded below) : 00\n\
\x20Preserve Register Bits : 0\n\
[0001] Reserved : 00\n\
[0012] Register Region : [Generic Address Structure]\n\
[0001] Space ID : 00 [SystemMemory]\n\
[0001] Bit Width : C1\n\
[0001] Bit Offset : 23\n\
[0001] Encoded Access Width : 04 [QWord Access:64]\n\
[0008] Address : B1612DD272D1371C\n\
[0008] Value : 17149D439536B321\n\
[0008] Mask : 6FDAEEB975729FAE\n\
[0001] Action : 01 [Get Trigger Table]\n\
[0001] Instruction : 00 [Read Register]\n\
[0001] Flags (decoded below) : 00\n\
\x20Preserve Register Bits : 0\n\
[0001] Reserved : 00\n\
[0012] Register Region : [Generic Address Structure]\n\
[0001] Space ID : 00 [SystemMemory]\n\
[0001] Bit Width : 92\n\
[0001] Bit Offset : 3D\n\
[0001] Encoded Access Width : 04 [QWord Access:64]\n\
[0008] Address : 5A4FD12AABFE228F\n\
[0008] Value : 219E9CB0EB53F169\n\
[0008] Mask : 47CCF25EC84D8DBC\n\
",
        bytes: b"\
0\0\0\0\xA4\0\0\0\x0A\0\0\0\0\0\0\0\0\xC1#\x04\x1C7\xD1r\xD2-a\xB1!\xB36\x95C\x9D\x14\x17\
\xAE\x9Fru\xB9\xEE\xDAo\x01\0\0\0\0\x92=\x04\x8F\x22\xFE\xAB*\xD1OZi\xF1S\xEB\xB0\x9C\x9E!\
\xBC\x8DM\xC8^\xF2\xCCG",
        told: b"",
    },
    // PCCT: each of its structures
    Row {
        signature: b"\"PCCT\"",
        revision: b"01",
        lines: b"\
[0004] Flags (decoded below) : 00000001\n\
\x20Platform : 1\n\
[0008] Reserved : 0000000000000000\n\
[0001] Subtable Type : 00 [Generic Communications Subspace]\n\
[0001] Length : 3E\n\
[0006] Reserved : 000000000000\n\
[0008] Base Address : A4C123B1612DD272\n\
[0008] Address Length : 2222222222222222\n\
[0012] Doorbell Register : [Generic Address Structure]\n\
[0001] Space ID : 01 [SystemIO]\n\
[0001] Bit Width : D1\n\
[0001] Bit Offset : 37\n\
[0001] Encoded Access Width : 03 [DWord Access:32]\n\
[0008] Address : 1C17149D439536B3\n\
[0008] Preserve Mask : 216FDAEEB975729F\n\
[0008] Write Mask : AE923D5A4FD12AAB\n\
[0004] Command Latency : FE228F21\n\
[0004] Maximum Access Rate : 9E9CB0EB\n\
[0002] Minimum Turnaround Time : 53F1\n\
[0001] Subtable Type : 01 [HW-Reduced Comm Subspace]\n\
[0001] Length : 3E\n\
[0004] Platform Interrupt : 6947CCF2\n\
[0001] Flags (Decoded Below) : 01\n\
\x20Polarity : 1\n\
\x20Mode : 0\n\
[0001] Reserved : 00\n\
[0008] Base Address : 5EC84D8DBC742547\n\
[0008] Address Length : 0000000000000000\n\
[0012] Doorbell Register : [Generic Address Structure]\n\
[0001] Space ID : 01 [SystemIO]\n\
[0001] Bit Width : 70\n\
[0001] Bit Offset : F5\n\
[0001] Encoded Access Width : 03 [DWord Access:32]\n\
[0008] Address : 8904DBA41ECCCC3F\n\
[0008] Preserve Mask : C1626E53A13043B0\n\
[0008] Write Mask : 26C48BBF33FEFF92\n\
[0004] Command Latency : 43A8F506\n\
[0004] Maximum Access Rate : B40928B5\n\
[0002] Minimum Turnaround Time : B7A7\n\
[0001] Subtable Type : 02 [HW-Reduced Comm Subspace Type2]\n\
[0001] Length : 5A\n\
[0004] Platform Interrupt : 67C76FB0\n\
[0001] Flags (Decoded Below) : 01\n\
\x20Polarity : 1\n\
\x20Mode : 0\n\
[0001] Reserved : 00\n\
[0008] Base Address : 08F86BEBB2737F6A\n\
[0008] Address Length : 0000000000000000\n\
[0012] Doorbell Register : [Generic Address Structure]\n\
[0001] Space ID : 01 [SystemIO]\n\
[0001] Bit Width : 6F\n\
[0001] Bit Offset : 0F\n\
[0001] Encoded Access Width : 03 [DWord Access:32]\n\
[0008] Address : B23C6F5DA2CEC255\n\
[0008] Preserve Mask : 404E4FB440034D66\n\
[0008] Write Mask : 08697A8D41BED440\n\
[0004] Command Latency : E50454F3\n\
[0004] Maximum Access Rate : 1AF31768\n\
[0002] Minimum Turnaround Time : 13E0\n\
[0012] Platform ACK Register : [Generic Address Structure]\n\
[0001] Space ID : 01 [SystemIO]\n\
[0001] Bit Width : 2E\n\
[0001] Bit Offset : A6\n\
[0001] Encoded Access Width : 03 [DWord Access:32]\n\
[0008] Address : 8EF786E4D3CEA27D\n\
[0008] ACK Preserve Mask : 26934B484E73CF57\n\
[0008] ACK Write Mask : 5DCAD6BA2B0AEE0C\n\
[0001] Subtable Type : 03 [Extended PCC Master Subspace]\n\
[0001] Length : A4\n\
[0004] Platform Interrupt : A9237328\n\
[0001] Flags (Decoded Below) : 01\n\
\x20Polarity : 1\n\
\x20Mode : 0\n\
[0001] Reserved : 00\n\
[0008] Base Address : 81584D8C4FA2815D\n\
[0004] Address Length : 00000000\n\
[0012] Doorbell Register : [Generic Address Structure]\n\
[0001] Space ID : 01 [SystemIO]\n\
[0001] Bit Width : 28\n\
[0001] Bit Offset : 02\n\
[0001] Encoded Access Width : 03 [DWord Access:32]\n\
[0008] Address : 827283E0AD841735\n\
[0008] Preserve Mask : 81569969E58B0810\n\
[0008] Write Mask : 06F7E3DFC967A64C\n\
[0004] Command Latency : B14028D5\n\
[0004] Maximum Access Rate : 12C9791E\n\
[0004] Minimum Turnaround Time : 558E08BA\n\
[0012] Platform ACK Register : [Generic Address Structure]\n\
[0001] Space ID : 01 [SystemIO]\n\
[0001] Bit Width : A7\n\
[0001] Bit Offset : 19\n\
[0001] Encoded Access Width : 03 [DWord Access:32]\n\
[0008] Address : 6B50AC2F86702824\n\
[0008] ACK Preserve Mask : C1C099724CAF4941\n\
[0008] ACK Set Mask : D4072014B3CE107F\n\
[0008] Reserved : 0000000000000000\n\
[0012] Command Complete Register : [Generic Address Structure]\n\
[0001] Space ID : 01 [SystemIO]\n\
[0001] Bit Width : 80\n\
[0001] Bit Offset : E2\n\
[0001] Encoded Access Width : 03 [DWord Access:32]\n\
[0008] Address : 22F828767EFC2F91\n\
[0008] Command Complete Check Mask : 624A8940F1F836F9\n\
[0012] Command Update Register : [Generic Address Structure]\n\
[0001] Space ID : 01 [SystemIO]\n\
[0001] Bit Width : 9E\n\
[0001] Bit Offset : EE\n\
[0001] Encoded Access Width : 03 [DWord Access:32]\n\
[0008] Address : 3692F09E2E8C6622\n\
[0008] Command Update Preserve Mask : 48B483B7FFC050FE\n\
[0008] Command Update Set Mask : C94DBCA3A0AAC360\n\
[0012] Error Status Register : [Generic Address Structure]\n\
[0001] Space ID : 01 [SystemIO]\n\
[0001] Bit Width : 98\n\
[0001] Bit Offset : B2\n\
[0001] Encoded Access Width : 03 [DWord Access:32]\n\
[0008] Address : CC2BD818319478DA\n\
[0008] Error Status Mask : 6BD0C621DE49F145\n\
[0001] Subtable Type : 04 [Extended PCC Slave Subspace]\n\
[0001] Length : A4\n\
[0004] Platform Interrupt : FDA9988C\n\
[0001] Flags (Decoded Below) : 01\n\
\x20Polarity : 1\n\
\x20Mode : 0\n\
[0001] Reserved : 00\n\
[0008] Base Address : 79FC35526F7EAED4\n\
[0004] Address Length : 00000000\n\
[0012] Doorbell Register : [Generic Address Structure]\n\
[0001] Space ID : 01 [SystemIO]\n\
[0001] Bit Width : 67\n\
[0001] Bit Offset : 25\n\
[0001] Encoded Access Width : 03 [DWord Access:32]\n\
[0008] Address : A2A7B860DCD6C8A1\n\
[0008] Preserve Mask : F8B46287CCED9041\n\
[0008] Write Mask : DFF02CEE737443E2\n\
[0004] Command Latency : 10471948\n\
[0004] Maximum Access Rate : D33296C8\n\
[0004] Minimum Turnaround Time : 7009E8A7\n\
[0012] Platform ACK Register : [Generic Address Structure]\n\
[0001] Space ID : 01 [SystemIO]\n\
[0001] Bit Width : F7\n\
[0001] Bit Offset : 70\n\
[0001] Encoded Access Width : 03 [DWord Access:32]\n\
[0008] Address : D9106FD287DB7F1A\n\
[0008] ACK Preserve Mask : DBC60926F6967E78\n\
[0008] ACK Set Mask : 93F57FD14C1604D1\n\
[0008] Reserved : 0000000000000000\n\
[0012] Command Complete Register : [Generic Address Structure]\n\
[0001] Space ID : 01 [SystemIO]\n\
[0001] Bit Width : 15\n\
[0001] Bit Offset : CE\n\
[0001] Encoded Access Width : 03 [DWord Access:32]\n\
[0008] Address : A325A65E19CBAE53\n\
[0008] Command Complete Check Mask : 0282BD36CB9D21F6\n\
[0012] Command Update Register : [Generic Address Structure]\n\
[0001] Space ID : 01 [SystemIO]\n\
[0001] Bit Width : BE\n\
[0001] Bit Offset : 6A\n\
[0001] Encoded Access Width : 03 [DWord Access:32]\n\
[0008] Address : BF0D7C1C1E21862A\n\
[0008] Command Update Preserve Mask : B8A18A8902073FEC\n\
[0008] Command Update Set Mask : 8DF4F50947AAEB26\n\
[0012] Error Status Register : [Generic Address Structure]\n\
[0001] Space ID : 01 [SystemIO]\n\
[0001] Bit Width : C5\n\
[0001] Bit Offset : 7D\n\
[0001] Encoded Access Width : 03 [DWord Access:32]\n\
[0008] Address : 21FA5D328263DFE5\n\
[0008] Error Status Mask : 74DE739988B886E7\n\
",
        bytes: b"\
\x01\0\0\0\0\0\0\0\0\0\0\0\0>\0\0\0\0\0\0r\xD2-a\xB1#\xC1\xA4\x22\x22\x22\x22\x22\x22\x22\
\x22\x01\xD17\x03\xB36\x95C\x9D\x14\x17\x1C\x9Fru\xB9\xEE\xDAo!\xAB*\xD1OZ=\x92\xAE!\x8F\x22\
\xFE\xEB\xB0\x9C\x9E\xF1S\x01>\xF2\xCCGi\x01\0G%t\xBC\x8DM\xC8^\0\0\0\0\0\0\0\0\x01p\xF5\x03\
?\xCC\xCC\x1E\xA4\xDB\x04\x89\xB0C0\xA1Snb\xC1\x92\xFF\xFE3\xBF\x8B\xC4&\x06\xF5\xA8C\xB5(\
\x09\xB4\xA7\xB7\x02Z\xB0o\xC7g\x01\0j\x7Fs\xB2\xEBk\xF8\x08\0\0\0\0\0\0\0\0\x01o\x0F\x03U\
\xC2\xCE\xA2]o<\xB2fM\x03@\xB4ON@@\xD4\xBEA\x8Dzi\x08\xF3T\x04\xE5h\x17\xF3\x1A\xE0\x13\x01.\
\xA6\x03}\xA2\xCE\xD3\xE4\x86\xF7\x8EW\xCFsNHK\x93&\x0C\xEE\x0A+\xBA\xD6\xCA]\x03\xA4(s#\xA9\
\x01\0]\x81\xA2O\x8CMX\x81\0\0\0\0\x01(\x02\x035\x17\x84\xAD\xE0\x83r\x82\x10\x08\x8B\xE5i\
\x99V\x81L\xA6g\xC9\xDF\xE3\xF7\x06\xD5(@\xB1\x1Ey\xC9\x12\xBA\x08\x8EU\x01\xA7\x19\x03$(p\
\x86/\xACPkAI\xAFLr\x99\xC0\xC1\x7F\x10\xCE\xB3\x14 \x07\xD4\0\0\0\0\0\0\0\0\x01\x80\xE2\x03\
\x91/\xFC~v(\xF8\x22\xF96\xF8\xF1@\x89Jb\x01\x9E\xEE\x03\x22f\x8C.\x9E\xF0\x926\xFEP\xC0\xFF\
\xB7\x83\xB4H`\xC3\xAA\xA0\xA3\xBCM\xC9\x01\x98\xB2\x03\xDAx\x941\x18\xD8+\xCCE\xF1I\xDE!\
\xC6\xD0k\x04\xA4\x8C\x98\xA9\xFD\x01\0\xD4\xAE~oR5\xFCy\0\0\0\0\x01g%\x03\xA1\xC8\xD6\xDC`\
\xB8\xA7\xA2A\x90\xED\xCC\x87b\xB4\xF8\xE2Cts\xEE,\xF0\xDFH\x19G\x10\xC8\x962\xD3\xA7\xE8\
\x09p\x01\xF7p\x03\x1A\x7F\xDB\x87\xD2o\x10\xD9x~\x96\xF6&\x09\xC6\xDB\xD1\x04\x16L\xD1\x7F\
\xF5\x93\0\0\0\0\0\0\0\0\x01\x15\xCE\x03S\xAE\xCB\x19^\xA6%\xA3\xF6!\x9D\xCB6\xBD\x82\x02\
\x01\xBEj\x03*\x86!\x1E\x1C|\x0D\xBF\xEC?\x07\x02\x89\x8A\xA1\xB8&\xEB\xAAG\x09\xF5\xF4\x8D\
\x01\xC5}\x03\xE5\xDFc\x822]\xFA!\xE7\x86\xB8\x88\x99s\xDEt",
        told: b"",
    },
    // TCPA of a virtual machine
    Row {
        signature: b"\"TCPA\"",
        revision: b"02",
        lines: b"\
[0002] Platform Class : 0000\n\
[0004] Min Event Log Length : 00010000\n\
[0008] Event Log Address : 0000000007FF0000\n\
",
        bytes: b"\
\0\0\0\0\x01\0\0\0\xFF\x07\0\0\0\0",
        told: b"",
    },
    // GTDT of revision 2 of a virtual machine
    Row {
        signature: b"\"GTDT\"",
        revision: b"02",
        lines: b"\
[0008] Counter Block Address : FFFFFFFFFFFFFFFF\n\
[0004] Reserved : 00000000\n\
[0004] Secure EL1 Interrupt : 0000001D\n\
[0004] EL1 Flags (decoded below) : 00000000\n\
\x20Trigger Mode : 0\n\
\x20Polarity : 0\n\
\x20Always On : 0\n\
[0004] Non-Secure EL1 Interrupt : 0000001E\n\
[0004] NEL1 Flags (decoded below) : 00000004\n\
\x20Trigger Mode : 0\n\
\x20Polarity : 0\n\
\x20Always On : 1\n\
[0004] Virtual Timer Interrupt : 0000001B\n\
[0004] VT Flags (decoded below) : 00000000\n\
\x20Trigger Mode : 0\n\
\x20Polarity : 0\n\
\x20Always On : 0\n\
[0004] Non-Secure EL2 Interrupt : 0000001A\n\
[0004] NEL2 Flags (decoded below) : 00000000\n\
\x20Trigger Mode : 0\n\
\x20Polarity : 0\n\
\x20Always On : 0\n\
[0008] Counter Read Block Address : FFFFFFFFFFFFFFFF\n\
[0004] Platform Timer Count : 00000000\n\
[0004] Platform Timer Offset : 00000000\n\
",
        bytes: b"\
\xFF\xFF\xFF\xFF\xFF\xFF\xFF\xFF\0\0\0\0\x1D\0\0\0\0\0\0\0\x1E\0\0\0\x04\0\0\0\x1B\0\0\0\0\0\
\0\0\x1A\0\0\0\0\0\0\0\xFF\xFF\xFF\xFF\xFF\xFF\xFF\xFF\0\0\0\0\0\0\0\0",
        told: b"",
    },
    // GTDT: a watchdog timer
    Row {
        signature: b"\"GTDT\"",
        revision: b"03",
        lines: b"\
[0008] Counter Block Address : 0000000000000000\n\
[0004] Reserved : 00000000\n\
[0004] Secure EL1 Interrupt : A4C123B1\n\
[0004] EL1 Flags (decoded below) : 00000001\n\
\x20Trigger Mode : 1\n\
\x20Polarity : 0\n\
\x20Always On : 0\n\
[0004] Non-Secure EL1 Interrupt : 612DD272\n\
[0004] NEL1 Flags (decoded below) : 00000001\n\
\x20Trigger Mode : 1\n\
\x20Polarity : 0\n\
\x20Always On : 0\n\
[0004] Virtual Timer Interrupt : D1371C17\n\
[0004] VT Flags (decoded below) : 00000001\n\
\x20Trigger Mode : 1\n\
\x20Polarity : 0\n\
\x20Always On : 0\n\
[0004] Non-Secure EL2 Interrupt : 149D4395\n\
[0004] NEL2 Flags (decoded below) : 00000001\n\
\x20Trigger Mode : 1\n\
\x20Polarity : 0\n\
\x20Always On : 0\n\
[0008] Counter Read Block Address : 0000000000000000\n\
[0004] Platform Timer Count : 00000002\n\
[0004] Platform Timer Offset : 36B3216F\n\
[0004] Virtual EL2 Timer GSIV : DAEEB975\n\
[0004] Virtual EL2 Timer Flags : 729FAE92\n\
[0001] Subtable Type : 01 [Generic Watchdog Timer]\n\
[0002] Length : 001C\n\
[0001] Reserved : 00\n\
[0008] Refresh Frame Address : B7A767C76FB008F8\n\
[0008] Control Frame Address : 6BEBB2737F6A6F0F\n\
[0004] Timer Interrupt : B23C6F5D\n\
[0004] Timer Flags (decoded below) : 00000001\n\
\x20Trigger Mode : 1\n\
\x20Polarity : 0\n\
\x20Security : 0\n\
",
        bytes: b"\
\0\0\0\0\0\0\0\0\0\0\0\0\xB1#\xC1\xA4\x01\0\0\0r\xD2-a\x01\0\0\0\x17\x1C7\xD1\x01\0\0\0\x95C\
\x9D\x14\x01\0\0\0\0\0\0\0\0\0\0\0\x02\0\0\0o!\xB36u\xB9\xEE\xDA\x92\xAE\x9Fr\x01\x1C\0\0\
\xF8\x08\xB0o\xC7g\xA7\xB7\x0Foj\x7Fs\xB2\xEBk]o<\xB2\x01\0\0\0",
        told: b"",
    },
    // HEST: error sources of the types 7, 8, 9, 10
    Row {
        signature: b"\"HEST\"",
        revision: b"01",
        lines: b"\
[0004] Error Source Count : 00000004\n\
[0002] Subtable Type : 0007 [PCI Express AER (AER Endpoint)]\n\
[0002] Source Id : A281\n\
[0002] Reserved : 0000\n\
[0001] Flags (decoded below) : 00\n\
\x20Firmware First : 0\n\
\x20Global : 0\n\
[0001] Enabled : 5D\n\
[0004] Records To Preallocate : 28028272\n\
[0004] Max Sections Per Record : 83E0AD84\n\
[0004] Bus : 17358156\n\
[0002] Device : 9969\n\
[0002] Function : E58B\n\
[0002] DeviceControl : 0810\n\
[0002] Reserved : 0000\n\
[0004] Uncorrectable Mask : 06F7E3DF\n\
[0004] Uncorrectable Severity : C967A64C\n\
[0004] Correctable Mask : B14028D5\n\
[0004] Advanced Capabilities : 12C9791E\n\
[0002] Subtable Type : 0008 [PCI Express/PCI-X Bridge AER]\n\
[0002] Source Id : 558E\n\
[0002] Reserved : 0000\n\
[0001] Flags (decoded below) : 00\n\
\x20Firmware First : 0\n\
\x20Global : 0\n\
[0001] Enabled : 08\n\
[0004] Records To Preallocate : BAA7196B\n\
[0004] Max Sections Per Record : 50AC2F86\n\
[0004] Bus : 702824C1\n\
[0002] Device : C099\n\
[0002] Function : 724C\n\
[0002] DeviceControl : AF49\n\
[0002] Reserved : 0000\n\
[0004] Uncorrectable Mask : 41D40720\n\
[0004] Uncorrectable Severity : 14B3CE10\n\
[0004] Correctable Mask : 7F80E222\n\
[0004] Advanced Capabilities : F828767E\n\
[0004] 2nd Uncorrectable Mask : FC2F9162\n\
[0004] 2nd Uncorrectable Severity : 4A8940F1\n\
[0004] 2nd Advanced Capabilities : F836F99E\n\
[0002] Subtable Type : 0009 [Generic Hardware Error Source]\n\
[0002] Source Id : EE36\n\
[0002] Related Source Id : 92F0\n\
[0001] Reserved : 00\n\
[0001] Enabled : 9E\n\
[0004] Records To Preallocate : 2E8C6622\n\
[0004] Max Sections Per Record : 48B483B7\n\
[0004] Max Raw Data Length : 00001000\n\
[0012] Error Status Address : [Generic Address Structure]\n\
[0001] Space ID : 00 [SystemMemory]\n\
[0001] Bit Width : FF\n\
[0001] Bit Offset : C0\n\
[0001] Encoded Access Width : 04 [QWord Access:64]\n\
[0008] Address : 50FEC94DBCA3A0AA\n\
[0028] Notify : [Hardware Error Notification Structure]\n\
[0001] Notify Type : C3 [SCI]\n\
[0001] Notify Length : 1C\n\
[0002] Configuration Write Enable : 6098\n\
[0004] PollInterval : B2CC2BD8\n\
[0004] Vector : 18319478\n\
[0004] Polling Threshold Value : DA6BD0C6\n\
[0004] Polling Threshold Window : 21DE49F1\n\
[0004] Error Threshold Value : 45FDA998\n\
[0004] Error Threshold Window : 8C79FC35\n\
[0004] Error Status Block Length : 00001000\n\
[0002] Subtable Type : 000A [Generic Hardware Error Source V2]\n\
[0002] Source Id : DB7F\n\
[0002] Related Source Id : 1ADB\n\
[0001] Reserved : 00\n\
[0001] Enabled : C6\n\
[0004] Records To Preallocate : 0926F696\n\
[0004] Max Sections Per Record : 7E7893F5\n\
[0004] Max Raw Data Length : 00001000\n\
[0012] Error Status Address : [Generic Address Structure]\n\
[0001] Space ID : 00 [SystemMemory]\n\
[0001] Bit Width : 7F\n\
[0001] Bit Offset : D1\n\
[0001] Encoded Access Width : 04 [QWord Access:64]\n\
[0008] Address : 4C1604D115CEA325\n\
[0028] Notify : [Hardware Error Notification Structure]\n\
[0001] Notify Type : A6 [NMI]\n\
[0001] Notify Length : 1C\n\
[0002] Configuration Write Enable : 5E19\n\
[0004] PollInterval : CBAE5302\n\
[0004] Vector : 82BD36CB\n\
[0004] Polling Threshold Value : 9D21F6BE\n\
[0004] Polling Threshold Window : 6ABF0D7C\n\
[0004] Error Threshold Value : 1C1E2186\n\
[0004] Error Threshold Window : 2AB8A18A\n\
[0004] Error Status Block Length : 00001000\n\
[0012] Read Ack Register : [Generic Address Structure]\n\
[0001] Space ID : 00 [SystemMemory]\n\
[0001] Bit Width : 89\n\
[0001] Bit Offset : 02\n\
[0001] Encoded Access Width : 04 [QWord Access:64]\n\
[0008] Address : 073FEC8DF4F50947\n\
[0008] Read Ack Preserve : AAEB26C57D21FA5D\n\
[0008] Read Ack Write : 328263DFE574DE73\n\
",
        bytes: b"\
\x04\0\0\0\x07\0\x81\xA2\0\0\0]r\x82\x02(\x84\xAD\xE0\x83V\x815\x17i\x99\x8B\xE5\x10\x08\0\0\
\xDF\xE3\xF7\x06L\xA6g\xC9\xD5(@\xB1\x1Ey\xC9\x12\x08\0\x8EU\0\0\0\x08k\x19\xA7\xBA\x86/\xAC\
P\xC1$(p\x99\xC0LrI\xAF\0\0 \x07\xD4A\x10\xCE\xB3\x14\x22\xE2\x80\x7F~v(\xF8b\x91/\xFC\xF1@\
\x89J\x9E\xF96\xF8\x09\06\xEE\xF0\x92\0\x9E\x22f\x8C.\xB7\x83\xB4H\0\x10\0\0\0\xFF\xC0\x04\
\xAA\xA0\xA3\xBCM\xC9\xFEP\xC3\x1C\x98`\xD8+\xCC\xB2x\x941\x18\xC6\xD0k\xDA\xF1I\xDE!\x98\
\xA9\xFDE5\xFCy\x8C\0\x10\0\0\x0A\0\x7F\xDB\xDB\x1A\0\xC6\x96\xF6&\x09\xF5\x93x~\0\x10\0\0\0\
\x7F\xD1\x04%\xA3\xCE\x15\xD1\x04\x16L\xA6\x1C\x19^\x02S\xAE\xCB\xCB6\xBD\x82\xBE\xF6!\x9D|\
\x0D\xBFj\x86!\x1E\x1C\x8A\xA1\xB8*\0\x10\0\0\0\x89\x02\x04G\x09\xF5\xF4\x8D\xEC?\x07]\xFA!}\
\xC5&\xEB\xAAs\xDEt\xE5\xDFc\x822",
        told: b"",
    },
    // VIOT: the bytes of the table of a virtual machine
    Row {
        signature: b"\"VIOT\"",
        revision: b"00",
        lines: b"\
[0002] Node count : 0003\n\
[0002] Node offset : 0030\n\
[0008] Reserved : 0000000000000000\n\
[0001] Type : 03\n\
[0001] Reserved : 00\n\
[0002] Length : 0010\n\
[0002] PCI Segment : 0000\n\
[0002] PCI BDF number : 0010\n\
[0008] Reserved : 0000000000000000\n\
[0001] Type : 01\n\
[0001] Reserved : 00\n\
[0002] Length : 0018\n\
[0004] Endpoint start : 00001000\n\
[0002] PCI Segment start : 0000\n\
[0002] PCI Segment end : 0000\n\
[0002] PCI BDF start : 1000\n\
[0002] PCI BDF end : 10FF\n\
[0002] Output node : 0030\n\
[0006] Reserved : 000000000000\n\
[0001] Type : 01\n\
[0001] Reserved : 00\n\
[0002] Length : 0018\n\
[0004] Endpoint start : 00003000\n\
[0002] PCI Segment start : 0000\n\
[0002] PCI Segment end : 0000\n\
[0002] PCI BDF start : 3000\n\
[0002] PCI BDF end : 30FF\n\
[0002] Output node : 0030\n\
[0006] Reserved : 000000000000\n\
",
        bytes: b"\
\x03\00\0\0\0\0\0\0\0\0\0\x03\0\x10\0\0\0\x10\0\0\0\0\0\0\0\0\0\x01\0\x18\0\0\x10\0\0\0\0\0\
\0\0\x10\xFF\x100\0\0\0\0\0\0\0\x01\0\x18\0\00\0\0\0\0\0\0\00\xFF00\0\0\0\0\0\0\0",
        told: b"",
    },
    // NFIT of a virtual machine
    Row {
        signature: b"\"NFIT\"",
        revision: b"01",
        lines: b"\
[0004] Reserved : 00000000\n\
[0002] Subtable Type : 0000 [System Physical Address Range]\n\
[0002] Length : 0038\n\
[0002] Range Index : 0004\n\
[0002] Flags (decoded below) : 0003\n\
\x20Add/Online Operation Only : 1\n\
\x20Proximity Domain Valid : 1\n\
[0004] Reserved : 00000000\n\
[0004] Proximity Domain : 00000002\n\
[0016] Region Type GUID : 66F0D379-B4F3-4074-AC43-0D3318B78CDB\n\
[0008] Address Range Base : 0000000108000000\n\
[0008] Address Range Length : 0000000008000000\n\
[0008] Memory Map Attribute : 0000000000008008\n\
[0002] Subtable Type : 0001 [Memory Range Map]\n\
[0002] Length : 0030\n\
[0004] Device Handle : 00000002\n\
[0002] Physical Id : 0000\n\
[0002] Region Id : 0000\n\
[0002] Range Index : 0004\n\
[0002] Control Region Index : 0005\n\
[0008] Region Size : 0000000008000000\n\
[0008] Region Offset : 0000000000000000\n\
[0008] Address Region Base : 0000000000000000\n\
[0002] Interleave Index : 0000\n\
[0002] Interleave Ways : 0001\n\
[0002] Flags : 0000\n\
\x20Save to device failed : 0\n\
\x20Restore from device failed : 0\n\
\x20Platform flush failed : 0\n\
\x20Device not armed : 0\n\
\x20Health events observed : 0\n\
\x20Health events enabled : 0\n\
\x20Mapping failed : 0\n\
[0002] Reserved : 0000\n\
[0002] Subtable Type : 0004 [NVDIMM Control Region]\n\
[0002] Length : 0050\n\
[0002] Region Index : 0005\n\
[0002] Vendor Id : 8086\n\
[0002] Device Id : 0001\n\
[0002] Revision Id : 0001\n\
[0002] Subsystem Vendor Id : 0000\n\
[0002] Subsystem Device Id : 0000\n\
[0002] Subsystem Revision Id : 0000\n\
[0001] Valid Fields : 00\n\
[0001] Manufacturing Location : 00\n\
[0002] Manufacturing Date : 0000\n\
[0002] Reserved : 0000\n\
[0004] Serial Number : 00123457\n\
[0002] Code : 0301\n\
[0002] Window Count : 0000\n\
[0008] Window Size : 0000000000000000\n\
[0008] Command Offset : 0000000000000000\n\
[0008] Command Size : 0000000000000000\n\
[0008] Status Offset : 0000000000000000\n\
[0008] Status Size : 0000000000000000\n\
[0002] Flags : 0000\n\
\x20Windows buffered : 0\n\
[0006] Reserved1 : 000000000000\n\
[0002] Subtable Type : 0007 [Platform Capabilities]\n\
[0002] Length : 0010\n\
[0001] Highest Capability : 01\n\
[0003] Reserved : 000000\n\
[0004] Capabilities (decoded below) : 00000003\n\
\x20Cache Flush to NVDIMM : 1\n\
\x20Memory Flush to NVDIMM : 1\n\
\x20Memory Mirroring : 0\n\
[0004] Reserved : 00000000\n\
",
        bytes: b"\
\0\0\0\0\0\08\0\x04\0\x03\0\0\0\0\0\x02\0\0\0y\xD3\xF0f\xF3\xB4t@\xACC\x0D3\x18\xB7\x8C\xDB\
\0\0\0\x08\x01\0\0\0\0\0\0\x08\0\0\0\0\x08\x80\0\0\0\0\0\0\x01\00\0\x02\0\0\0\0\0\0\0\x04\0\
\x05\0\0\0\0\x08\0\0\0\0\0\0\0\0\0\0\0\0\0\0\0\0\0\0\0\0\0\0\x01\0\0\0\0\0\x04\0P\0\x05\0\
\x86\x80\x01\0\x01\0\0\0\0\0\0\0\0\0\0\0\0\0W4\x12\0\x01\x03\0\0\0\0\0\0\0\0\0\0\0\0\0\0\0\0\
\0\0\0\0\0\0\0\0\0\0\0\0\0\0\0\0\0\0\0\0\0\0\0\0\0\0\0\0\0\0\0\0\0\0\x07\0\x10\0\x01\0\0\0\
\x03\0\0\0\0\0\0\0",
        told: b"",
    },
    // NFIT: a data region
    Row {
        signature: b"\"NFIT\"",
        revision: b"01",
        lines: b"\
[0004] Reserved : 00000000\n\
[0002] Subtable Type : 0005 [NVDIMM Block Data Window Region]\n\
[0002] Length : 0028\n\
[0002] Region Index : A27D\n\
[0002] Window Count : 0100\n\
[0008] Offset : 26934B484E73CF57\n\
[0008] Size : 5DCAD6BA2B0AEE0C\n\
[0008] Capacity : A923732881584D8C\n\
[0008] Start Address : 4FA2815D28028272\n\
",
        bytes: b"\
\0\0\0\0\x05\0(\0}\xA2\0\x01W\xCFsNHK\x93&\x0C\xEE\x0A+\xBA\xD6\xCA]\x8CMX\x81(s#\xA9r\x82\
\x02(]\x81\xA2O",
        told: b"",
    },
];
