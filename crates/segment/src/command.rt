// What a first byte can say.
use crate::{Data, Display, Pointer, Stepping};

#[derive(Clone, Copy)]
pub enum Command {
    // The mode code.
    Mode(u8),
    // Test mode, which is undefined.
    Test,
    // A data setting.
    Setting(Data, Stepping),
    // PT6315's undefined data setting: any of its data modes.
    AnySetting(Stepping),
    // Dimming, and the display on or off.
    Control(u8, Display),
    // The address of the next data byte.
    Start(Pointer),
}
