// Draws and folds from the back and from both ends.
mod drawing;
mod folding;
mod rev;
