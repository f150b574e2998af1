// A saved setting as writes of a VV5404's or VV6404's registers (004, Table 8; 02, A6 and A11).

#![tactic(auto)]

ghost use Rattle.std.specs.Prelude.{◌≡◌};
ghost use Rattle.saved_registers.specs.SettingRegisters.{setting_pairs};

use saved_setting::SavedSetting;
use two_wire::register;

// Index and value of each register to write, one after another, as `two_wire_write::write` takes them: fine and coarse exposure, each high byte
// first, gain and clock divisor.
pub fn pairs(setting: SavedSetting) -> [u8; 12]
    ensures { result ≡ setting_pairs setting }
{
    [
        register::FINE_HIGH,
        (setting.fine / 256) as u8,
        register::FINE_LOW,
        (setting.fine % 256) as u8,
        register::COARSE_HIGH,
        (setting.coarse / 256) as u8,
        register::COARSE_LOW,
        (setting.coarse % 256) as u8,
        register::GAIN,
        setting.gain,
        register::CLOCK_DIVISOR,
        setting.divisor,
    ]
}
